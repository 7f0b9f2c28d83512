ghost use Rattle.std.specs.Prelude.{◌≡◌, ◌<◌, ◌+◌, ℕ, List, length, nat_lt, nat_eq};
ghost use Rattle.spec_trees.specs.Expr.{Expr};
ghost use Rattle.spec_grammar.specs.Height.{height, items_height, pairs_height, links_height, list_height, generator_height, arguments_height, bound_height};
ghost use Rattle.py_tree.specs.Exprs.{node_tree, items_tree, pairs_tree, links_tree, argument_list_tree, generator_tree, arguments_tree, bound_tree, ArePartsBelow, AreItemsBelow, ArePairsBelow, AreLinksBelow, AreArgumentsBelow, IsGeneratorBelow, IsCallBelow, IsBoundBelow};
ghost use Rattle.py_tree.specs.State.{shown};

use py_tree::{Argument, ArgumentsNode, ExprId, ExprNode, GeneratorNode, Link, Module, Pair};

// Whether a node has no part that is an expression.
fn is_leaf(node: &ExprNode) -> bool
    ensures { (names : List (List ℕ)) (t : ℕ → Expr) → result ≡ nat_eq (height (node_tree names t node.now)) 0 }
{
    matches!(
        node,
        ExprNode::Name { .. }
            | ExprNode::Integer { .. }
            | ExprNode::Text { .. }
            | ExprNode::Truth { .. }
            | ExprNode::None { .. }
    )
}

// Whether an expression is higher than so many nodes. The walk goes at most one node deeper than that.
#[cycle(walk)]
#[tactic(auto, using(crate::proofs::Parts::parts_there))]
pub(crate) fn is_above(module: &Module, e: ExprId, room: usize) -> bool
    requires { e.index < length «module».now.exprs }
    ensures { result ≡ nat_lt room (height (shown «module».now e.index)) }
{
    let node = module.expr(e);
    match room.checked_sub(1) {
        None => !is_leaf(node),
        Some(below) => are_parts_above(module, node, below),
    }
}

// Whether a part of a node is higher than so many nodes, and so the node itself than one more.
#[cycle(walk)]
fn are_parts_above(module: &Module, node: &ExprNode, room: usize) -> bool
    requires { ArePartsBelow (length «module».now.names) (length «module».now.exprs) node.now }
    ensures { result ≡ nat_lt (1 + room) (height (node_tree «module».now.names (shown «module».now) node.now)) }
{
    match node {
        ExprNode::Name { .. }
        | ExprNode::Integer { .. }
        | ExprNode::Text { .. }
        | ExprNode::Truth { .. }
        | ExprNode::None { .. } => false,
        ExprNode::Group { inner, .. } => is_above(module, *inner, room),
        ExprNode::List { items, .. } => are_items_above(module, items, room),
        ExprNode::Dict { pairs, .. } => are_pairs_above(module, pairs, room),
        ExprNode::Comprehension { generator, .. } => is_generator_above(module, generator, room),
        ExprNode::Attribute { object, .. } => is_above(module, *object, room),
        ExprNode::Call {
            function,
            arguments,
            ..
        } => is_above(module, *function, room) || are_arguments_above(module, arguments, room),
        ExprNode::Index { object, index, .. } => {
            is_above(module, *object, room) || is_above(module, *index, room)
        }
        ExprNode::Slice {
            object,
            from,
            to,
            ..
        } => {
            is_above(module, *object, room)
                || is_bound_above(module, *from, room)
                || is_bound_above(module, *to, room)
        }
        ExprNode::Prefixed { operand, .. } => is_above(module, *operand, room),
        ExprNode::Binary { left, right, .. } => {
            is_above(module, *left, room) || is_above(module, *right, room)
        }
        ExprNode::Chain { first, links, .. } => {
            is_above(module, *first, room) || are_links_above(module, links, room)
        }
        ExprNode::Choice {
            value,
            condition,
            otherwise,
            ..
        } => {
            is_above(module, *value, room)
                || is_above(module, *condition, room)
                || is_above(module, *otherwise, room)
        }
    }
}

// Whether an item is higher than so many nodes.
#[cycle(walk)]
fn are_items_above(module: &Module, items: &[ExprId], room: usize) -> bool
    requires { AreItemsBelow (length «module».now.exprs) items.now }
    ensures { result ≡ nat_lt room (items_height (items_tree (shown «module».now) items.now)) }
{
    for item in items {
        if is_above(module, *item, room) {
            return true;
        }
    }
    false
}

// Whether a key or a value is higher than so many nodes.
#[cycle(walk)]
fn are_pairs_above(module: &Module, pairs: &[Pair], room: usize) -> bool
    requires { ArePairsBelow (length «module».now.exprs) pairs.now }
    ensures { result ≡ nat_lt room (pairs_height (pairs_tree (shown «module».now) pairs.now)) }
{
    for pair in pairs {
        if is_above(module, pair.key, room) || is_above(module, pair.value, room) {
            return true;
        }
    }
    false
}

// Whether an operand behind the first is higher than so many nodes.
#[cycle(walk)]
fn are_links_above(module: &Module, links: &[Link], room: usize) -> bool
    requires { AreLinksBelow (length «module».now.exprs) links.now }
    ensures { result ≡ nat_lt room (links_height (links_tree (shown «module».now) links.now)) }
{
    for link in links {
        if is_above(module, link.operand, room) {
            return true;
        }
    }
    false
}

// Whether a listed argument is higher than so many nodes.
#[cycle(walk)]
fn are_listed_above(module: &Module, listed: &[Argument], room: usize) -> bool
    requires { AreArgumentsBelow (length «module».now.names) (length «module».now.exprs) listed.now }
    ensures { result ≡ nat_lt room (list_height (argument_list_tree «module».now.names (shown «module».now) listed.now)) }
{
    for argument in listed {
        if is_above(module, argument.value, room) {
            return true;
        }
    }
    false
}

// Whether a part of a generator is higher than so many nodes.
#[cycle(walk)]
fn is_generator_above(module: &Module, generator: &GeneratorNode, room: usize) -> bool
    requires { IsGeneratorBelow (length «module».now.names) (length «module».now.exprs) generator.now }
    ensures { result ≡ nat_lt room (generator_height (generator_tree «module».now.names (shown «module».now) generator.now)) }
{
    is_above(module, generator.element, room)
        || is_above(module, generator.iterable, room)
        || are_items_above(module, &generator.conditions, room)
}

// Whether an expression between the brackets of a call is higher than so many nodes.
#[cycle(walk)]
pub(crate) fn are_arguments_above(module: &Module, arguments: &ArgumentsNode, room: usize) -> bool
    requires { IsCallBelow (length «module».now.names) (length «module».now.exprs) arguments.now }
    ensures { result ≡ nat_lt room (arguments_height (arguments_tree «module».now.names (shown «module».now) arguments.now)) }
{
    match arguments {
        ArgumentsNode::Generated(generator) => is_generator_above(module, generator, room),
        ArgumentsNode::Listed(listed) => are_listed_above(module, listed, room),
    }
}

// Whether there is a bound of a slice and it is higher than so many nodes.
#[cycle(walk)]
fn is_bound_above(module: &Module, bound: Option<ExprId>, room: usize) -> bool
    requires { IsBoundBelow (length «module».now.exprs) bound }
    ensures { result ≡ nat_lt room (bound_height (bound_tree (shown «module».now) bound)) }
{
    match bound {
        None => false,
        Some(e) => is_above(module, e, room),
    }
}
