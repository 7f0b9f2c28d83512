ghost use Rattle.std.specs.Prelude.{◌<◌, length, IfOk};

use crate::{Annotation, annotations};
use py_tree::{Module, TypeId, TypeNode};
use std::alloc::Global;
use std::test::Fail;
use xh_outside::NoMemory;

/// Adds the type `C` on the line 4.
fn add_class(alloc: Global, module: &mut Module) -> Result<TypeId, NoMemory>
    ensures { IfOk result (λ t. t.index < length «module».new.types) }
{
    let name = module.add_name("C")?;
    let t = module.add_type(TypeNode::Name {
        line: 4,
        name,
        arguments: Vec::new(alloc),
    })?;
    Ok(t)
}

/// Whether an annotation on the line 4 is read as a type.
fn is_type(annotation: Option<Annotation>) -> bool {
    matches!(
        annotation,
        Some(Annotation {
            line: 4,
            unquoted: Some(_)
        })
    )
}

#[test]
fn annotations_are_read_in_their_order(rt: HostRuntime) -> Result<(), Fail> {
    let alloc = rt.alloc();
    let mut module = Module::new(alloc);
    let class = add_class(alloc, &mut module)?;
    let written = vec![in alloc; vec![in alloc; None, Some(class)]?]?;
    let read = annotations(alloc, &mut module, &written)?;
    assert!(rt; read.len() == 1);
    assert!(rt; read[0].len() == 2);
    assert!(rt; read[0][0].is_none());
    assert!(rt; is_type(read[0][1]));
    Ok(())
}
