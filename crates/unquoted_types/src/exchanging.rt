ghost use Rattle.std.specs.Prelude.{◌≡◌, ◌<◌, length, chars, Some, IfOk};
ghost use Rattle.std.specs.Option.{option_map};
ghost use Rattle.spec_trees.specs.Stmt as tree;
ghost use Rattle.spec_types.specs.Quotes.{all_exchanged, both, exchanged, exchanged_if, held_type};
ghost use Rattle.spec_syntax.specs.Texts.{parsed_type};
ghost use Rattle.py_tree.specs.Arena.{IsModule, shown_type};
ghost use Rattle.py_tree.specs.Names.{text_of};
ghost use Rattle.py_tree.specs.Types.{AreTypesBelow, types_tree};
ghost use Rattle.py_types.specs.Given.{Grows};
ghost use Rattle.unquoted_types.specs.Given.{GivesType, GivesTypes, held_in};

use crate::nodes::add;
use crate::strings::{held_type, text_of};
use py_tree::{Module, NameId, TypeId, TypeNode};
use std::alloc::Global;
use xh_outside::NoMemory;

// The type that a text on a line holds, where strings stand in each other so many times at most.
#[cycle(exchanging)]
fn held(
    alloc: Global,
    module: &mut Module,
    bound: usize,
    line: u32,
    text: &str,
) -> Result<Option<TypeId>, NoMemory>
    requires { IsModule «module».old }
    ensures grown { Grows «module».old «module».new }
    ensures exchanged { IfOk result (λ o. GivesType «module».new o (held_in bound line (chars text.now))) }
{
    if bound == 0 {
        return Ok(None);
    }
    let Some(t) = held_type(alloc, module, line, text)? else {
        return Ok(None);
    };
    exchanged(alloc, module, bound - 1, t)
}

// A name whose arguments are exchanged.
#[cycle(exchanging)]
fn exchanged_name(
    alloc: Global,
    module: &mut Module,
    bound: usize,
    line: u32,
    name: NameId,
    arguments: &[TypeId],
) -> Result<Option<TypeId>, NoMemory>
    requires module { IsModule «module».old }
    requires name { name.index < length «module».old.names }
    requires arguments { AreTypesBelow (length «module».old.types) arguments.now }
    ensures grown { Grows «module».old «module».new }
    ensures exchanged { IfOk result (λ o. GivesType «module».new o (option_map (tree.name line (text_of «module».old.names name)) (all_exchanged (held_type bound) (types_tree (shown_type «module».old) arguments.now)))) }
{
    let Some(arguments) = all_exchanged(alloc, module, bound, arguments)? else {
        return Ok(None);
    };
    add(
        module,
        TypeNode::Name {
            line,
            name,
            arguments,
        },
    )
}

// A union whose types are exchanged.
#[cycle(exchanging)]
fn exchanged_union(
    alloc: Global,
    module: &mut Module,
    bound: usize,
    line: u32,
    first: TypeId,
    rest: &[TypeId],
) -> Result<Option<TypeId>, NoMemory>
    requires module { IsModule «module».old }
    requires first { first.index < length «module».old.types }
    requires rest { AreTypesBelow (length «module».old.types) rest.now }
    ensures grown { Grows «module».old «module».new }
    ensures exchanged { IfOk result (λ o. GivesType «module».new o (both (tree.union line) (exchanged (held_type bound) (shown_type «module».old first.index)) (all_exchanged (held_type bound) (types_tree (shown_type «module».old) rest.now)))) }
{
    let Some(first) = exchanged(alloc, module, bound, first)? else {
        return Ok(None);
    };
    let Some(rest) = all_exchanged(alloc, module, bound, rest)? else {
        return Ok(None);
    };
    add(module, TypeNode::Union { line, first, rest })
}

// Annotations whose strings are exchanged.
#[cycle(exchanging)]
fn all_exchanged(
    alloc: Global,
    module: &mut Module,
    bound: usize,
    types: &[TypeId],
) -> Result<Option<Vec<TypeId>>, NoMemory>
    requires module { IsModule «module».old }
    requires types { AreTypesBelow (length «module».old.types) types.now }
    ensures grown { Grows «module».old «module».new }
    ensures exchanged { IfOk result (λ o. GivesTypes (λ v. v.items) «module».new o (all_exchanged (held_type bound) (types_tree (shown_type «module».old) types.now))) }
{
    let mut made = Vec::new(alloc);
    for t in types {
        let Some(next) = exchanged(alloc, module, bound, *t)? else {
            return Ok(None);
        };
        made.push(next)?;
    }
    Ok(Some(made))
}

/// An annotation in which each string is exchanged for the type that it holds, where strings stand in each other so many
/// times at most.
#[cycle(exchanging)]
pub(crate) fn exchanged(
    alloc: Global,
    module: &mut Module,
    bound: usize,
    t: TypeId,
) -> Result<Option<TypeId>, NoMemory>
    requires module { IsModule «module».old }
    requires there { t.index < length «module».old.types }
    ensures grown { Grows «module».old «module».new }
    ensures exchanged { IfOk result (λ o. GivesType «module».new o (exchanged (held_type bound) (shown_type «module».old t.index))) }
{
    match module.type_node(t) {
        TypeNode::Name {
            line,
            name,
            arguments,
        } => {
            let (line, name) = (*line, *name);
            let arguments = Vec::from_slice(alloc, arguments)?;
            exchanged_name(alloc, module, bound, line, name, &arguments)
        }
        TypeNode::Union { line, first, rest } => {
            let (line, first) = (*line, *first);
            let rest = Vec::from_slice(alloc, rest)?;
            exchanged_union(alloc, module, bound, line, first, &rest)
        }
        TypeNode::None { .. } => Ok(Some(t)),
        TypeNode::Text { part, .. } => {
            let line = part.line;
            let text = text_of(alloc, part.value.as_slice())?;
            held(alloc, module, bound, line, text.as_str())
        }
    }
}
