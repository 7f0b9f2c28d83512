ghost use Rattle.std.specs.Prelude.{◌≡◌, ◌<◌, length, IfOk};
ghost use Rattle.spec_types.specs.Types.{line_of_type};
ghost use Rattle.py_tree.specs.Arena.{shown_type};
ghost use Rattle.py_tree.specs.Types.{IsTypeBelow, optional_type};
ghost use Rattle.py_types.specs.Given.{Grows};
ghost use Rattle.read_annotations.specs.Reading.{IsThere, read, read_type, shown_annotation, shown_in};

use py_tree::{Module, TypeId, TypeNode};
use std::alloc::Global;
use unquoted_types::unquoted;
use xh_outside::NoMemory;

/// An annotation of a parameter.
#[derive(Clone, Copy, Debug, PartialEq, Eq)]
pub struct Annotation {
    /// The line on which it begins, from 1.
    pub line: u32,
    /// The type in which each of its strings is exchanged for what it holds, or None where a string holds no type.
    pub unquoted: Option<TypeId>,
}

// The line on which a type begins.
fn line_of_type(module: &Module, t: TypeId) -> u32
    requires { t.index < length «module».now.types }
    ensures { result ≡ line_of_type (shown_type «module».now t.index) }
{
    match module.type_node(t) {
        TypeNode::Name { line, .. }
        | TypeNode::Union { line, .. }
        | TypeNode::None { line }
        | TypeNode::Text { line, .. } => *line,
    }
}

// Reads the annotation that a type is.
fn read_type(alloc: Global, module: &mut Module, t: TypeId) -> Result<Annotation, NoMemory>
    requires { t.index < length «module».old.types }
    ensures grown { Grows «module».old «module».new }
    ensures there { IfOk result (λ a. IsTypeBelow (length «module».new.types) a.unquoted) }
    ensures read { IfOk result (λ a. shown_annotation «module».new a ≡ read_type (shown_type «module».old t.index)) }
{
    let line = line_of_type(module, t);
    let unquoted = unquoted(alloc, module, t)?;
    Ok(Annotation { line, unquoted })
}

/// Reads the annotation of a parameter, if it has one.
#[tactic(auto, using(py_types::proofs::Growth::grows_same))]
pub(crate) fn read(
    alloc: Global,
    module: &mut Module,
    annotation: Option<TypeId>,
) -> Result<Option<Annotation>, NoMemory>
    requires { IsTypeBelow (length «module».old.types) annotation }
    ensures grown { Grows «module».old «module».new }
    ensures there { IfOk result (λ o. IsThere «module».new o) }
    ensures read { IfOk result (λ o. shown_in «module».new o ≡ read (optional_type (shown_type «module».old) annotation)) }
{
    // its contract tells what holds of every module
    let _ = module.types_count();
    match annotation {
        Some(t) => {
            let read = read_type(alloc, module, t)?;
            Ok(Some(read))
        }
        None => Ok(None),
    }
}
