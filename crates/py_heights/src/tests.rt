ghost use Rattle.std.specs.Prelude.{◌<◌, ℕ, IfOk};
ghost use Rattle.py_tree.specs.Exprs.{ArePartsBelow, IsBoundBelow, IsGeneratorBelow};

use crate::walk::is_above;
use crate::{are_arguments_high, are_defaults_high, is_high, is_option_high, is_target_high};
use py_tree::{
    Argument, ArgumentsNode, ExprId, ExprNode, GeneratorNode, Link, Module, NameId, Operator, Pair,
    ParameterNode, Prefix,
};
use std::alloc::Global;
use std::test::Fail;
use xh_outside::NoMemory;

/// What is made of two expressions, a and b.
#[derive(Clone, Copy, Debug)]
enum Shape {
    /// `(a)`
    Group,
    /// `[]`
    EmptyList,
    /// `[a, b]`
    List,
    /// `{a: b}`
    Dict,
    /// `[a for x in b]`
    Comprehension,
    /// `[a for x in a if b]`
    Condition,
    /// `a.x`
    Attribute,
    /// `a(b)`
    Call,
    /// `a(b for x in a)`
    GeneratorCall,
    /// `a[b]`
    Index,
    /// `a[b:]`
    SliceFrom,
    /// `a[:b]`
    SliceTo,
    /// `-a`
    Prefixed,
    /// `a + b`
    Binary,
    /// `a < b < b`
    Chain,
    /// `a if b else a`
    Choice,
}

/// The generator of these parts, with at most one condition.
fn generator(
    alloc: Global,
    element: ExprId,
    variable: NameId,
    iterable: ExprId,
    condition: Option<ExprId>,
) -> Result<GeneratorNode, NoMemory>
    ensures { IfOk result (λ g. (k n : ℕ) → variable.index < k → element.index < n → iterable.index < n → IsBoundBelow n condition → IsGeneratorBelow k n g) }
{
    let mut conditions = Vec::new(alloc);
    if let Some(condition) = condition {
        conditions.push(condition)?;
    }
    Ok(GeneratorNode {
        element,
        variable,
        iterable,
        conditions,
    })
}

/// The node of a shape.
fn node(
    alloc: Global,
    shape: Shape,
    name: NameId,
    a: ExprId,
    b: ExprId,
) -> Result<ExprNode, NoMemory>
    ensures { IfOk result (λ node. (k n : ℕ) → name.index < k → a.index < n → b.index < n → ArePartsBelow k n node) }
{
    let line = 1;
    let link = Link {
        operator: Operator::Less,
        operand: b,
    };
    match shape {
        Shape::Group => Ok(ExprNode::Group { line, inner: a }),
        Shape::EmptyList => Ok(ExprNode::List {
            line,
            items: Vec::new(alloc),
        }),
        Shape::List => Ok(ExprNode::List {
            line,
            items: vec![in alloc; a, b]?,
        }),
        Shape::Dict => Ok(ExprNode::Dict {
            line,
            pairs: vec![in alloc; Pair { key: a, value: b }]?,
        }),
        Shape::Comprehension => Ok(ExprNode::Comprehension {
            line,
            generator: generator(alloc, a, name, b, None)?,
        }),
        Shape::Condition => Ok(ExprNode::Comprehension {
            line,
            generator: generator(alloc, a, name, a, Some(b))?,
        }),
        Shape::Attribute => Ok(ExprNode::Attribute {
            line,
            object: a,
            name,
        }),
        Shape::Call => Ok(ExprNode::Call {
            line,
            function: a,
            arguments: ArgumentsNode::Listed(vec![in alloc;
                Argument {
                    name: None,
                    value: b
                },
            ]?),
        }),
        Shape::GeneratorCall => Ok(ExprNode::Call {
            line,
            function: a,
            arguments: ArgumentsNode::Generated(generator(alloc, b, name, a, None)?),
        }),
        Shape::Index => Ok(ExprNode::Index {
            line,
            object: a,
            index: b,
        }),
        Shape::SliceFrom => Ok(ExprNode::Slice {
            line,
            object: a,
            from: Some(b),
            to: None,
        }),
        Shape::SliceTo => Ok(ExprNode::Slice {
            line,
            object: a,
            from: None,
            to: Some(b),
        }),
        Shape::Prefixed => Ok(ExprNode::Prefixed {
            line,
            operator: Prefix::Minus,
            operand: a,
        }),
        Shape::Binary => Ok(ExprNode::Binary {
            line,
            operator: Operator::Add,
            left: a,
            right: b,
        }),
        Shape::Chain => Ok(ExprNode::Chain {
            line,
            first: a,
            links: vec![in alloc; link, link]?,
        }),
        Shape::Choice => Ok(ExprNode::Choice {
            line,
            value: a,
            condition: b,
            otherwise: a,
        }),
    }
}

/// Adds the node of a shape, whose parts must be there.
fn add(
    rt: &HostRuntime,
    module: &mut Module,
    shape: Shape,
    a: ExprId,
    b: ExprId,
) -> Result<ExprId, Fail> {
    let name = module.add_name("x")?;
    let count = module.exprs_count();
    if a.index >= count || b.index >= count {
        return Err(NoMemory.into());
    }
    let node = node(rt.alloc(), shape, name, a, b)?;
    Ok(module.add_expr(node)?)
}

/// So many prefixes before a name.
fn tower(rt: &HostRuntime, module: &mut Module, height: u32) -> Result<ExprId, Fail> {
    let name = module.add_name("x")?;
    let mut last = module.add_expr(ExprNode::Name { line: 1, name })?;
    for _ in 0..height {
        last = add(rt, module, Shape::Prefixed, last, last)?;
    }
    Ok(last)
}

/// The height of an expression that is there, where it is less than 10.
fn height_of(module: &Module, e: ExprId) -> usize {
    if e.index < module.exprs_count() {
        for room in 0..10 {
            if !is_above(module, e, room) {
                return room;
            }
        }
    }
    10
}

/// The heights of the node of a shape over two low parts, over a low one and a tall one, and the other way round.
fn shape_heights(rt: &HostRuntime, shape: Shape) -> Result<(usize, usize, usize), Fail> {
    let mut module = Module::new(rt.alloc());
    let low = tower(rt, &mut module, 0)?;
    let tall = tower(rt, &mut module, 3)?;
    let first = add(rt, &mut module, shape, low, low)?;
    let second = add(rt, &mut module, shape, low, tall)?;
    let third = add(rt, &mut module, shape, tall, low)?;
    Ok((
        height_of(&module, first),
        height_of(&module, second),
        height_of(&module, third),
    ))
}

#[test]
fn each_shape_is_one_above_its_highest_part(rt: HostRuntime) -> Result<(), Fail> {
    for (shape, heights) in [
        (Shape::Group, (1, 1, 4)),
        (Shape::EmptyList, (1, 1, 1)),
        (Shape::List, (1, 4, 4)),
        (Shape::Dict, (1, 4, 4)),
        (Shape::Comprehension, (1, 4, 4)),
        (Shape::Condition, (1, 4, 4)),
        (Shape::Attribute, (1, 1, 4)),
        (Shape::Call, (1, 4, 4)),
        (Shape::GeneratorCall, (1, 4, 4)),
        (Shape::Index, (1, 4, 4)),
        (Shape::SliceFrom, (1, 4, 4)),
        (Shape::SliceTo, (1, 4, 4)),
        (Shape::Prefixed, (1, 1, 4)),
        (Shape::Binary, (1, 4, 4)),
        (Shape::Chain, (1, 4, 4)),
        (Shape::Choice, (1, 4, 4)),
    ] {
        assert_eq!(rt; shape_heights(&rt, shape)?, heights, "{shape:?}");
    }
    Ok(())
}

/// Whether an expression that must be there is high, and then whether it is as an optional one.
fn is_expression_high(module: &Module, e: ExprId) -> (bool, bool) {
    if e.index < module.exprs_count() {
        return (is_high(module, e), is_option_high(module, Some(e)));
    }
    (false, false)
}

/// Whether an expression of this height is high, and then whether it is as an optional one.
fn are_high(rt: &HostRuntime, height: u32) -> Result<(bool, bool), Fail> {
    let mut module = Module::new(rt.alloc());
    let tall = tower(rt, &mut module, height)?;
    Ok(is_expression_high(&module, tall))
}

/// Whether a target that must be there is high.
fn is_high_target(module: &Module, target: ExprId) -> bool {
    target.index < module.exprs_count() && is_target_high(module, target)
}

/// Whether targets of a shape are high over an expression of this height and a low one, and the other way round.
fn are_targets_high(rt: &HostRuntime, shape: Shape, height: u32) -> Result<(bool, bool), Fail> {
    let mut module = Module::new(rt.alloc());
    let low = tower(rt, &mut module, 0)?;
    let tall = tower(rt, &mut module, height)?;
    let first = add(rt, &mut module, shape, tall, low)?;
    let second = add(rt, &mut module, shape, low, tall)?;
    Ok((
        is_high_target(&module, first),
        is_high_target(&module, second),
    ))
}

/// Whether an argument that must be there is high, and then whether a default is.
fn are_uses_high(
    rt: &HostRuntime,
    module: &Module,
    name: NameId,
    value: ExprId,
) -> Result<(bool, bool), Fail> {
    if name.index >= module.names_count() || value.index >= module.exprs_count() {
        return Err(NoMemory.into());
    }
    let argument = Argument { name: None, value };
    let parameter = ParameterNode {
        name,
        annotation: None,
        default: Some(value),
    };
    let arguments = ArgumentsNode::Listed(vec![in rt.alloc(); argument]?);
    Ok((
        are_arguments_high(module, &arguments),
        are_defaults_high(module, &[parameter]),
    ))
}

/// Whether an argument of this height is high, and then whether a default is.
fn are_parts_high(rt: &HostRuntime, height: u32) -> Result<(bool, bool), Fail> {
    let mut module = Module::new(rt.alloc());
    let tall = tower(rt, &mut module, height)?;
    let name = module.add_name("x")?;
    are_uses_high(rt, &module, name, tall)
}

#[test]
fn heights_above_100_are_high(rt: HostRuntime) -> Result<(), Fail> {
    for (height, is_high) in [
        (0, false),
        (99, false),
        (100, false),
        (101, true),
        (300, true),
    ] {
        assert_eq!(rt; are_high(&rt, height)?, (is_high, is_high), "{height}");
        assert_eq!(rt;
            are_parts_high(&rt, height)?,
            (is_high, is_high),
            "{height}"
        );
    }
    Ok(())
}

#[test]
fn a_target_counts_no_attribute_and_no_subscript_of_its_own(rt: HostRuntime) -> Result<(), Fail> {
    for (shape, height, is_high) in [
        (Shape::Attribute, 100, (false, false)),
        (Shape::Attribute, 101, (true, false)),
        (Shape::Index, 100, (false, false)),
        (Shape::Index, 101, (true, true)),
        (Shape::Group, 99, (false, false)),
        (Shape::Group, 100, (true, false)),
    ] {
        assert_eq!(rt;
            are_targets_high(&rt, shape, height)?,
            is_high,
            "{shape:?} over {height}"
        );
    }
    Ok(())
}

#[test]
fn a_long_sum_is_high(rt: HostRuntime) -> Result<(), Fail> {
    let mut module = Module::new(rt.alloc());
    let name = tower(&rt, &mut module, 0)?;
    let mut sum = name;
    for _ in 0..200 {
        sum = add(&rt, &mut module, Shape::Binary, sum, name)?;
    }
    assert_eq!(rt; is_expression_high(&module, name), (false, false));
    assert_eq!(rt; is_expression_high(&module, sum), (true, true));
    Ok(())
}
