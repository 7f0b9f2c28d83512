use crate::type_names;
use module_classes::classes;
use name_meanings::Meanings;
use py_tree::{Module, StmtNode};
use spec_types::TypeName;
use std::alloc::Global;
use std::test::Fail;
use xh_outside::NoMemory;

/// What the names of a module stand for in annotations.
fn types_of(alloc: Global, module: &Module) -> Result<Vec<TypeName>, NoMemory> {
    let meanings = Meanings::new(alloc, module)?;
    let found = classes(alloc, module)?;
    type_names(alloc, module, &meanings, &found)
}

#[test]
fn the_first_class_of_a_name_counts(rt: HostRuntime) -> Result<(), Fail> {
    let alloc = rt.alloc();
    let mut module = Module::new(alloc);
    let other = module.add_name("Other")?;
    let shape = module.add_name("Shape")?;
    let pass = module.add_stmt(StmtNode::Pass { line: 2 })?;
    let first = module.add_stmt(StmtNode::Class {
        line: 1,
        last: 2,
        name: other,
        body: vec![in alloc; pass]?,
    })?;
    let second = module.add_stmt(StmtNode::Class {
        line: 3,
        last: 4,
        name: shape,
        body: vec![in alloc; pass]?,
    })?;
    module.push_top(first)?;
    module.push_top(second)?;
    module.push_top(second)?;
    let types = types_of(alloc, &module)?;
    let want = [TypeName::Class(0), TypeName::Class(1)];
    assert!(rt; types.as_slice() == want.as_slice());
    Ok(())
}

#[test]
fn imported_names_are_types_and_others_are_none(rt: HostRuntime) -> Result<(), Fail> {
    let alloc = rt.alloc();
    let mut module = Module::new(alloc);
    let typing = module.add_name("typing")?;
    let list = module.add_name("List")?;
    module.add_name("Dict")?;
    module.add_name("dict")?;
    module.add_name("int")?;
    let names = module.add_names(&[list])?;
    let import = module.add_stmt(StmtNode::ImportFrom {
        line: 1,
        module: typing,
        names,
    })?;
    module.push_top(import)?;
    let types = types_of(alloc, &module)?;
    let want = [
        TypeName::Unknown,
        TypeName::List,
        TypeName::Unknown,
        TypeName::Dict,
        TypeName::Int,
    ];
    assert!(rt; types.as_slice() == want.as_slice());
    Ok(())
}
