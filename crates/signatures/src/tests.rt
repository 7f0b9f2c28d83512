ghost use Rattle.std.specs.Prelude.{◌≡◌, ◌<◌, [], length, IfOk};

use crate::{taken, written};
use given_types::GivenType;
use module_functions::Function;
use py_tree::{Module, NameId, ParameterNode, StmtNode, TypeId, TypeNode};
use read_annotations::Annotation;
use std::alloc::Global;
use std::test::Fail;
use xh_outside::NoMemory;

/// Adds the type None on the line 2.
fn add_none(module: &mut Module) -> Result<TypeId, NoMemory>
    ensures names { IfOk result (λ _. «module».new.names ≡ «module».old.names) }
    ensures there { IfOk result (λ t. t.index < length «module».new.types) }
{
    module.add_type(TypeNode::None { line: 2 })
}

/// Adds a function of two parameters, `self` and one of this type.
fn add_function(
    alloc: Global,
    module: &mut Module,
    annotation: TypeId,
) -> Result<Function, NoMemory>
    requires { annotation.index < length «module».old.types }
    ensures { IfOk result (λ f. f.statement.index < length «module».new.stmts) }
{
    let name = module.add_name("self")?;
    let receiver = ParameterNode {
        name,
        annotation: None,
        default: None,
    };
    let parameter = ParameterNode {
        name,
        annotation: Some(annotation),
        default: None,
    };
    let statement = module.add_stmt(StmtNode::Def {
        line: 1,
        last: 1,
        name,
        parameters: vec![in alloc; receiver, parameter]?,
        result: None,
        body: Vec::new(alloc),
    })?;
    Ok(Function {
        statement,
        class: None,
    })
}

#[test]
fn self_of_a_class_is_left_out(rt: HostRuntime) -> Result<(), Fail> {
    let alloc = rt.alloc();
    let mut module = Module::new(alloc);
    let none = add_none(&mut module)?;
    let function = add_function(alloc, &mut module, none)?;
    let method = Function {
        statement: function.statement,
        class: Some(0),
    };
    let lists = written(alloc, &module, &[function, method])?;
    assert!(rt; lists.len() == 2);
    assert!(rt; lists[0].as_slice() == [None, Some(none)].as_slice());
    assert!(rt; lists[1].as_slice() == [Some(none)].as_slice());
    Ok(())
}

#[test]
fn annotations_give_types_or_tell_that_they_are_none(rt: HostRuntime) -> Result<(), Fail> {
    let alloc = rt.alloc();
    let mut module = Module::new(alloc);
    let none = add_none(&mut module)?;
    let known = Annotation {
        line: 2,
        unquoted: Some(none),
    };
    let unknown = Annotation {
        line: 7,
        unquoted: None,
    };
    let annotations = vec![in alloc; None, Some(known), Some(unknown)]?;
    let lists = taken(alloc, &module, &[], &vec![in alloc; annotations]?)?;
    let want = [
        GivenType::Missing,
        GivenType::Known(none),
        GivenType::Unknown { line: 7 },
    ];
    assert!(rt; lists.len() == 1);
    assert!(rt; lists[0].as_slice() == want.as_slice());
    Ok(())
}
