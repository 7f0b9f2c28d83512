ghost use Rattle.std.specs.Prelude.{◌≡◌, ◌⊎◌, ◌+◌, ◌<◌, ℕ, List, length, MatchOption, IfOk};
ghost use Rattle.spec_trees.specs.Expr as tree;
ghost use Rattle.spec_first_trees.specs.Expr as expr;
ghost use Rattle.spec_forms.specs.Expressions.{binary_of, compare_of};
ghost use Rattle.spec_forms.specs.Forms.{named};
ghost use Rattle.py_tree.specs.Names.{text_of};
ghost use Rattle.py_tree.specs.State as source;
ghost use Rattle.py_tree.specs.Stmts.{AreParametersThere};
ghost use Rattle.first_tree.specs.Arena.{Extends};
ghost use Rattle.first_promises.specs.Copies.{comparison, fitting, if_fits, operands, Copies, CopiesOperands};
ghost use Rattle.first_promises.specs.Gives.{Gives};
ghost use Rattle.first_promises.specs.Scopes.{names_in};

use crate::errors::Unformed;
use crate::names::has_name;
use first_tree as first;
use first_tree::{BinaryOp, CompareOp};
use py_tree::{ExprId, ExprNode, Link, Module, NameId, Operator, ParameterNode};
use std::alloc::Global;
use xh_outside::{Bytes, NoMemory};

// The greatest height and size of an expression that is run.
const GREATEST: Room = Room {
    height: 64,
    size: 64,
};

// An integer that is run is below this.
const INTEGER_LIMIT: u128 = 1_000_000;

/// The names that an expression may have: those of the parameters and, in a post line, that of the returned value.
#[derive(Clone, Copy)]
pub struct Scope<'a> {
    pub parameters: &'a [ParameterNode],
    pub is_post: bool,
}

/// How high an expression may be, and how many nodes it may have.
#[derive(Clone, Copy)]
pub(crate) struct Room {
    pub height: usize,
    pub size: usize,
}

/// An expression, and how many more nodes there may be.
#[derive(Clone, Copy)]
pub(crate) struct Copied {
    pub expr: first::ExprId,
    pub size_left: usize,
}

/// The operands of a node, and how many more nodes there may be.
#[derive(Clone, Copy)]
pub(crate) struct Operands {
    pub left: first::ExprId,
    pub right: first::ExprId,
    pub size_left: usize,
}

// An operator of arithmetic that is run.
fn binary_of(operator: Operator) -> Option<BinaryOp>
    ensures { result ≡ binary_of operator }
{
    match operator {
        Operator::Add => Some(BinaryOp::Add),
        Operator::Subtract => Some(BinaryOp::Subtract),
        Operator::Multiply => Some(BinaryOp::Multiply),
        _ => None,
    }
}

// A comparison that is run.
fn compare_of(operator: Operator) -> Option<CompareOp>
    ensures { result ≡ compare_of operator }
{
    match operator {
        Operator::Equal => Some(CompareOp::Equal),
        Operator::NotEqual => Some(CompareOp::NotEqual),
        Operator::Less => Some(CompareOp::Less),
        Operator::LessEqual => Some(CompareOp::LessEqual),
        Operator::Greater => Some(CompareOp::Greater),
        Operator::GreaterEqual => Some(CompareOp::GreaterEqual),
        _ => None,
    }
}

// The comparison with the second operand, where a chain has these two operands alone.
fn comparison(links: &[Link]) -> Option<(CompareOp, ExprId)>
    ensures { result ≡ comparison links.now }
{
    let [link] = links else {
        return None;
    };
    let op = compare_of(link.operator)?;
    Some((op, link.operand))
}

// What is left for the operands of a node.
fn below_operator(room: Room) -> Option<Room>
    ensures { MatchOption result ((room.height ≡ 0) ⊎ (room.size ≡ 0)) (λ r. (room.height ≡ r.height + 1) × (room.size ≡ r.size + 1)) }
{
    match (room.height.checked_sub(1), room.size.checked_sub(1)) {
        (Some(height), Some(size)) => Some(Room { height, size }),
        _ => None,
    }
}

/// A copy of the text of a name.
pub fn copy_name(alloc: Global, name: &str) -> Result<Bytes, NoMemory>
    ensures { IfOk result (λ copy. copy ≡ name.now) }
{
    let mut copy = Bytes::new(alloc);
    copy.extend(name.as_bytes())?;
    Ok(copy)
}

// Adds a name that an expression may have.
fn add_name(
    alloc: Global,
    module: &Module,
    name: NameId,
    line: u32,
    scope: Scope,
    room: Room,
    into: &mut first::Module,
) -> Result<Copied, Unformed>
    requires name { name.index < length «module».now.names }
    requires parameters { AreParametersThere «module».now scope.parameters.now }
    ensures grown { Extends into.old.nodes into.new.nodes }
    ensures functions { into.new.functions ≡ into.old.functions }
    ensures copied { Copies into.new.nodes room.size result (if_fits (names_in «module».now scope.entry) room.height room.size (expr.name (text_of «module».now.names name))) }
{
    let Some(size_left) = room.size.checked_sub(1) else {
        return Err(Unformed::OtherForm);
    };
    if !has_name(module, scope, name) {
        return Err(Unformed::OtherForm);
    }
    let name = copy_name(alloc, module.name_text(name))?;
    let expr = into.add_expr(first::ExprNode::Name { name, line })?;
    Ok(Copied { expr, size_left })
}

// Adds an integer.
fn add_integer(
    value: u128,
    line: u32,
    room: Room,
    into: &mut first::Module,
) -> Result<Copied, Unformed>
    ensures grown { Extends into.old.nodes into.new.nodes }
    ensures functions { into.new.functions ≡ into.old.functions }
    ensures copied { (names : List (List ℕ)) → Copies into.new.nodes room.size result (fitting names room.height room.size (tree.integer line value)) }
{
    let Some(size_left) = room.size.checked_sub(1) else {
        return Err(Unformed::OtherForm);
    };
    if value >= INTEGER_LIMIT {
        return Err(Unformed::OtherForm);
    }
    let expr = into.add_expr(first::ExprNode::Int {
        value: value as u32,
        line,
    })?;
    Ok(Copied { expr, size_left })
}

// Copies an expression whose names, height and size are as they may be. The walk goes at most as deep as that.
#[cycle(copying)]
fn copy(
    alloc: Global,
    module: &Module,
    e: ExprId,
    scope: Scope,
    room: Room,
    into: &mut first::Module,
) -> Result<Copied, Unformed>
    requires expression { e.index < length «module».now.exprs }
    requires parameters { AreParametersThere «module».now scope.parameters.now }
    ensures grown { Extends into.old.nodes into.new.nodes }
    ensures functions { into.new.functions ≡ into.old.functions }
    ensures copied { Copies into.new.nodes room.size result (fitting (names_in «module».now scope.entry) room.height room.size (source.shown «module».now e.index)) }
{
    match module.expr(e) {
        ExprNode::Name { line, name } => add_name(alloc, module, *name, *line, scope, room, into),
        ExprNode::Integer { line, value } => add_integer(*value, *line, room, into),
        ExprNode::Group { line, inner } => {
            let Some(height) = room.height.checked_sub(1) else {
                return Err(Unformed::OtherForm);
            };
            let below = Room { height, ..room };
            let inner = copy(alloc, module, *inner, scope, below, into)?;
            let expr = into.add_expr(first::ExprNode::Group {
                inner: inner.expr,
                line: *line,
            })?;
            Ok(Copied {
                expr,
                size_left: inner.size_left,
            })
        }
        ExprNode::Binary {
            line,
            operator,
            left,
            right,
        } => {
            let Some(op) = binary_of(*operator) else {
                return Err(Unformed::OtherForm);
            };
            let operands = copy_operands(alloc, module, *left, *right, scope, room, into)?;
            let expr = into.add_expr(first::ExprNode::Binary {
                op,
                left: operands.left,
                right: operands.right,
                line: *line,
            })?;
            Ok(Copied {
                expr,
                size_left: operands.size_left,
            })
        }
        ExprNode::Chain { line, first, links } => {
            let Some((op, second)) = comparison(links) else {
                return Err(Unformed::OtherForm);
            };
            let operands = copy_operands(alloc, module, *first, second, scope, room, into)?;
            let expr = into.add_expr(first::ExprNode::Compare {
                op,
                left: operands.left,
                right: operands.right,
                line: *line,
            })?;
            Ok(Copied {
                expr,
                size_left: operands.size_left,
            })
        }
        _ => Err(Unformed::OtherForm),
    }
}

// Copies the operands of a node from left to right.
#[cycle(copying)]
fn copy_operands(
    alloc: Global,
    module: &Module,
    left: ExprId,
    right: ExprId,
    scope: Scope,
    room: Room,
    into: &mut first::Module,
) -> Result<Operands, Unformed>
    requires left { left.index < length «module».now.exprs }
    requires right { right.index < length «module».now.exprs }
    requires parameters { AreParametersThere «module».now scope.parameters.now }
    ensures grown { Extends into.old.nodes into.new.nodes }
    ensures functions { into.new.functions ≡ into.old.functions }
    ensures copied { CopiesOperands into.new.nodes room.size result (operands (names_in «module».now scope.entry) room.height room.size (source.shown «module».now left.index) (source.shown «module».now right.index)) }
{
    let Some(below) = below_operator(room) else {
        return Err(Unformed::OtherForm);
    };
    let left = copy(alloc, module, left, scope, below, into)?;
    let rest = Room {
        size: left.size_left,
        ..below
    };
    let right = copy(alloc, module, right, scope, rest, into)?;
    Ok(Operands {
        left: left.expr,
        right: right.expr,
        size_left: right.size_left,
    })
}

/// Copies an expression that is run and whose names are as they may be. After an error nodes may have been added.
///
/// It takes time linear in the number of parameters, since an expression that is run has at most 64 nodes.
///
/// # Errors
///
/// `OtherForm` exactly where the expression is not run or has another name. `NoMemory` where there is no memory for it.
pub fn copy_expression(
    alloc: Global,
    module: &Module,
    e: ExprId,
    scope: Scope,
    into: &mut first::Module,
) -> Result<first::ExprId, Unformed>
    requires expression { e.index < length «module».now.exprs }
    requires parameters { AreParametersThere «module».now scope.parameters.now }
    ensures grown { Extends into.old.nodes into.new.nodes }
    ensures functions { into.new.functions ≡ into.old.functions }
    ensures copied { Gives into.new.nodes result (named (names_in «module».now scope.entry) (source.shown «module».now e.index)) }
{
    let copied = copy(alloc, module, e, scope, GREATEST, into)?;
    Ok(copied.expr)
}
