ghost use Rattle.std.specs.Prelude.{◌≡◌, ◌<◌, List, [], ◌∷◌, codes, length, map, IfOk, IsTrue};
ghost use Rattle.spec_types.specs.Classes as defined;
ghost use Rattle.spec_types.specs.Names.{type_name};
ghost use Rattle.spec_types.specs.declared.TypeName.TheVariants as type_names;
ghost use Rattle.py_tree.specs.Arena.{AreTypePartsThere, module_tree};
ghost use Rattle.py_tree.specs.Types.{AreTypesBelow};

use crate::{add_spoken, kind, sum, width};
use py_tree::{Module, NameId, StmtNode, TypeId, TypeNode};
use spec_types::{TypeKind, TypeName};
use std::alloc::Global;
use std::test::Fail;
use xh_outside::NoMemory;

// The places of names.
const A: usize = 0;

const INT: usize = 1;

const LIST: usize = 2;

const DICT: usize = 3;

/// What the names stand for.
const NAMES: [TypeName; 4] = [
    TypeName::Class(0),
    TypeName::Int,
    TypeName::List,
    TypeName::Dict,
];

/// Types by their numbers.
fn types(alloc: Global, indices: &[usize]) -> Result<Vec<TypeId>, NoMemory> {
    let mut types = Vec::new(alloc);
    for index in indices {
        types.push(TypeId { index: *index })?;
    }
    Ok(types)
}

/// A name with these types in brackets.
fn named(alloc: Global, name: usize, arguments: &[usize]) -> Result<TypeNode, NoMemory> {
    Ok(TypeNode::Name {
        line: 1,
        name: NameId { index: name },
        arguments: types(alloc, arguments)?,
    })
}

/// Types between `|`.
fn joined(alloc: Global, first: usize, rest: &[usize]) -> Result<TypeNode, NoMemory> {
    Ok(TypeNode::Union {
        line: 1,
        first: TypeId { index: first },
        rest: types(alloc, rest)?,
    })
}

fn are_there(module: &Module, types: &[TypeId]) -> bool
    ensures { IsTrue result → AreTypesBelow (length «module».now.types) types.now }
{
    match types {
        [] => true,
        [first, rest @ ..] => {
            if first.index >= module.types_count() {
                return false;
            }
            are_there(module, rest)
        }
    }
}

/// Whether the parts of a node are there.
fn is_there(module: &Module, node: &TypeNode) -> bool
    ensures { IsTrue result → AreTypePartsThere «module».now node.now }
{
    match node {
        TypeNode::Name {
            name,
            arguments,
            ..
        } => {
            if name.index >= module.names_count() {
                return false;
            }
            are_there(module, arguments)
        }
        TypeNode::Union { first, rest, .. } => {
            if first.index >= module.types_count() {
                return false;
            }
            are_there(module, rest)
        }
        TypeNode::None { .. } | TypeNode::Text { .. } => true,
    }
}

/// Adds a type, where its parts are there.
fn add(module: &mut Module, node: TypeNode) -> Result<(), NoMemory>
    ensures names { IfOk result (λ _. «module».new.names ≡ «module».old.names) }
    ensures tops { IfOk result (λ _. «module».new.tops ≡ «module».old.tops) }
{
    if !is_there(module, &node) {
        return Err(NoMemory);
    }
    module.add_type(node)?;
    Ok(())
}

/// Adds the types that are looked at.
fn add_types(alloc: Global, module: &mut Module) -> Result<(), NoMemory>
    ensures names { IfOk result (λ _. «module».new.names ≡ «module».old.names) }
    ensures tops { IfOk result (λ _. «module».new.tops ≡ «module».old.tops) }
{
    add(module, named(alloc, INT, &[])?)?;
    add(module, TypeNode::None { line: 1 })?;
    add(module, named(alloc, LIST, &[0])?)?;
    add(module, named(alloc, A, &[])?)?;
    add(module, named(alloc, DICT, &[0, 3])?)?;
    add(module, joined(alloc, 2, &[1])?)?;
    add(module, joined(alloc, 1, &[4, 1])?)?;
    add(module, joined(alloc, 1, &[1])?)?;
    add(module, named(alloc, DICT, &[2, 3])?)?;
    add(module, joined(alloc, 0, &[3])?)
}

/// Adds the names.
fn add_names(module: &mut Module) -> Result<(), NoMemory>
    requires { «module».old.names ≡ [] }
    ensures names { IfOk result (λ _. «module».new.names ≡ codes "A" ∷ codes "int" ∷ codes "list" ∷ codes "dict" ∷ []) }
    ensures tops { IfOk result (λ _. «module».new.tops ≡ «module».old.tops) }
{
    module.add_name("A")?;
    module.add_name("int")?;
    module.add_name("list")?;
    module.add_name("dict")?;
    Ok(())
}

/// Defines the class A.
fn define(alloc: Global, module: &mut Module) -> Result<(), NoMemory>
    requires names { «module».old.names ≡ codes "A" ∷ codes "int" ∷ codes "list" ∷ codes "dict" ∷ [] }
    requires tops { «module».old.tops ≡ [] }
    ensures names { IfOk result (λ _. type_names.Class 0 ∷ type_names.Int ∷ type_names.List ∷ type_names.Dict ∷ [] ≡ map (type_name (module_tree «module».new).body) «module».new.names) }
    ensures classes { IfOk result (λ _. length (defined.classes (module_tree «module».new).body) ≡ 1) }
{
    let class = module.add_stmt(StmtNode::Class {
        line: 1,
        last: 1,
        name: NameId { index: A },
        body: Vec::new(alloc),
    })?;
    module.push_top(class)?;
    Ok(())
}

/// A module that defines the class A, and has these types:
/// 0: `int`, 1: `None`, 2: `list[int]`, 3: `A`, 4: `dict[int, A]`, 5: `list[int] | None`,
/// 6: `None | dict[int, A] | None`, 7: `None | None`,
/// and, which are none, 8: `dict[list[int], A]`, 9: `int | A`.
fn given(alloc: Global) -> Result<Module, NoMemory>
    ensures names { IfOk result (λ m. type_names.Class 0 ∷ type_names.Int ∷ type_names.List ∷ type_names.Dict ∷ [] ≡ map (type_name (module_tree m).body) m.names) }
    ensures classes { IfOk result (λ m. length (defined.classes (module_tree m).body) ≡ 1) }
{
    let mut module = Module::new(alloc);
    add_names(&mut module)?;
    add_types(alloc, &mut module)?;
    define(alloc, &mut module)?;
    Ok(module)
}

/// The number of a type of the module.
fn type_at(module: &Module, index: usize) -> Result<TypeId, NoMemory>
    ensures { IfOk result (λ t. t.index < length «module».now.types) }
{
    if index >= module.types_count() {
        return Err(NoMemory);
    }
    Ok(TypeId { index })
}

#[test]
fn kinds_are_of_types(rt: HostRuntime) -> Result<(), Fail> {
    let module = given(rt.alloc())?;
    for (index, want) in [
        (0, Some(TypeKind::Key)),
        (1, Some(TypeKind::None)),
        (2, Some(TypeKind::Other)),
        (3, Some(TypeKind::Other)),
        (4, Some(TypeKind::Other)),
        (5, Some(TypeKind::Other)),
        (6, Some(TypeKind::Other)),
        (7, Some(TypeKind::None)),
        (8, None),
        (9, None),
    ] {
        let t = type_at(&module, index)?;
        assert!(rt; kind(&module, &NAMES, t) == want, "of the type {index}");
    }
    Ok(())
}

#[test]
fn types_speak_of_classes(rt: HostRuntime) -> Result<(), Fail> {
    let module = given(rt.alloc())?;
    let mut spoken = Vec::new(rt.alloc());
    for (index, want) in [(2, 0), (3, 1), (4, 2), (6, 3), (7, 3)] {
        let t = type_at(&module, index)?;
        add_spoken(&module, &NAMES, t, &mut spoken)?;
        assert_eq!(rt; spoken.len(), want, "of the type {index}");
    }
    assert!(rt; spoken.as_slice() == [0, 0, 0].as_slice());
    Ok(())
}

#[test]
fn widths_count_parts(rt: HostRuntime) -> Result<(), Fail> {
    let module = given(rt.alloc())?;
    for (index, of_class, want) in [
        (0, None, Some(1)),
        (2, None, Some(4)),
        (3, None, None),
        (4, None, None),
        (4, Some(7), Some(25)),
        (4, Some(4097), Some(4097)),
        (5, None, Some(4)),
        (6, Some(7), Some(25)),
        (7, None, Some(1)),
    ] {
        let t = type_at(&module, index)?;
        let found = width(&module, &NAMES, t, 3, &[of_class]);
        assert!(rt; found == want, "of the type {index}");
    }
    Ok(())
}

#[test]
fn sums_stop_where_they_are_too_great(rt: HostRuntime) -> Result<(), Fail> {
    assert!(rt; sum(Some(1), Some(2)) == Some(3));
    assert!(rt; sum(Some(4000), Some(96)) == Some(4096));
    assert!(rt; sum(Some(4097), Some(4097)) == Some(4097));
    assert!(rt; sum(None, Some(1)) == None);
    Ok(())
}
