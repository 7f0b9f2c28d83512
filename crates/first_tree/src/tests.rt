use crate::{BinaryOp, Bounds, ExcClass, ExprNode, FnNode, Module, Post};
use std::alloc::Global;
use std::test::Fail;
use xh_outside::{Bytes, NoMemory};

fn bytes(alloc: Global, text: &[u8]) -> Result<Bytes, NoMemory> {
    let mut copy = Bytes::new(alloc);
    copy.extend(text)?;
    Ok(copy)
}

#[test]
fn a_square_is_read_back(rt: HostRuntime) -> Result<(), Fail> {
    let alloc = rt.alloc();
    let mut module = Module::new(alloc);
    let left = module.add_expr(ExprNode::Name {
        name: bytes(alloc, b"x")?,
        line: 3,
    })?;
    let right = module.add_expr(ExprNode::Name {
        name: bytes(alloc, b"x")?,
        line: 3,
    })?;
    let square = module.add_expr(ExprNode::Binary {
        op: BinaryOp::Multiply,
        left,
        right,
        line: 3,
    })?;
    let mut parameters = Vec::new(alloc);
    parameters.push(bytes(alloc, b"x")?)?;
    let mut preconditions = Vec::new(alloc);
    preconditions.push(right)?;
    let mut permitted = Vec::new(alloc);
    permitted.push(ExcClass::ValueError)?;
    let mut posts = Vec::new(alloc);
    posts.push(Post {
        line: 2,
        expr: left,
    })?;
    let mut values = Vec::new(alloc);
    values.push(square)?;
    module.add_function(FnNode {
        name: bytes(alloc, b"sq")?,
        line: 1,
        parameters,
        preconditions,
        permitted,
        posts,
        values,
    })?;
    assert_eq!(rt; (module.len(), module.functions()), (3, 1));

    let function = module.function(0);
    assert_eq!(rt; function.name.as_slice(), b"sq".as_slice());
    assert_eq!(rt; function.line, 1);
    assert_eq!(rt;
        (function.parameters.len(), function.preconditions.len()),
        (1, 1)
    );
    assert_eq!(rt;
        (
            function.permitted.len(),
            function.posts.len(),
            function.values.len()
        ),
        (1, 1, 1)
    );
    assert_eq!(rt; function.parameters[0].as_slice(), b"x".as_slice());
    assert_eq!(rt; function.preconditions[0], right);
    assert_eq!(rt; function.permitted[0], ExcClass::ValueError);
    assert_eq!(rt;
        function.posts[0],
        Post {
            line: 2,
            expr: left
        }
    );
    assert_eq!(rt; function.values[0], square);
    let is_square = match module.expr(square) {
        ExprNode::Binary {
            op,
            left: first,
            right: second,
            line,
        } => { *op == BinaryOp::Multiply && (*first, *second) == (left, right) && *line == 3 }
        _ => false,
    };
    assert!(rt; is_square);
    let is_x = match module.expr(left) {
        ExprNode::Name { name, line } => name.as_slice() == b"x".as_slice() && *line == 3,
        _ => false,
    };
    assert!(rt; is_x);
    Ok(())
}

#[test]
fn the_standard_bounds_are_those_of_the_report(rt: HostRuntime) {
    let bounds = Bounds::standard();
    assert_eq!(rt;
        (bounds.int_bits, bounds.max_len, bounds.char_bits),
        (8, 3, 7)
    );
    assert_eq!(rt;
        (bounds.max_nest, bounds.max_steps, bounds.max_depth),
        (2, 2000, 20)
    );
}
