ghost use Rattle.std.specs.Prelude.{◌<◌, length};
ghost use Rattle.spec_trees.specs.Expr.{attribute, call};
ghost use Rattle.py_tree.specs.Names.{text_of};
ghost use Rattle.spec_uses.specs.Expressions.{uses, uses_in, uses_in_arguments, uses_in_bound, uses_in_call, uses_in_generator, uses_in_links, uses_in_pairs, uses_in_rest};
ghost use Rattle.py_tree.specs.Arena.{shown};
ghost use Rattle.py_tree.specs.Exprs.{AreArgumentsBelow, AreItemsBelow, AreLinksBelow, ArePairsBelow, IsBoundBelow, IsCallBelow, IsGeneratorBelow, argument_list_tree, arguments_tree, bound_tree, generator_tree, items_tree, links_tree, pairs_tree};
ghost use Rattle.name_scopes.specs.Showing.{IsSized};
ghost use Rattle.name_scopes.specs.Walking.{Walks};
ghost use Rattle.expression_uses.specs.Parts.{uses_in_parts, uses_in_second};

use crate::arguments::{are_private, is_misused};
use crate::builtins::{
    builtin_in, is_asked_for, is_isinstance, is_misplaced, is_old_read, is_walk, place_of_sole,
};
use crate::names::{stands_for, told_of_name, unless_called};
use module_members::is_private;
use name_scopes::Scope;
use py_tree::{
    Argument, ArgumentsNode, ExprId, ExprNode, GeneratorNode, Link, Module, NameId, Pair,
};
use spec_names::{Builtin, ProfileFault, Refusal};
use spec_uses::Place;
use told_refusals::told_if;

// What is told behind expressions that are read.
#[cycle(uses)]
fn told_of_items(
    module: &Module,
    scope: &mut Scope,
    items: &[ExprId],
    told: Option<Refusal>,
) -> Option<Refusal>
    requires items { AreItemsBelow (length «module».now.exprs) items.now }
    requires sized { IsSized «module».now.names scope.old }
    ensures { Walks «module».now.names scope.old scope.new told result (λ s. uses_in s (items_tree (shown «module».now) items.now)) }
{
    let mut told = told;
    for item in items {
        told = told_of_expression(module, scope, Place::Read, *item, told);
    }
    told
}

// What is told behind the keys and values of a dict.
#[cycle(uses)]
fn told_of_pairs(
    module: &Module,
    scope: &mut Scope,
    pairs: &[Pair],
    told: Option<Refusal>,
) -> Option<Refusal>
    requires pairs { ArePairsBelow (length «module».now.exprs) pairs.now }
    requires sized { IsSized «module».now.names scope.old }
    ensures { Walks «module».now.names scope.old scope.new told result (λ s. uses_in_pairs s (pairs_tree (shown «module».now) pairs.now)) }
{
    let mut told = told;
    for pair in pairs {
        told = told_of_expression(module, scope, Place::Read, pair.key, told);
        told = told_of_expression(module, scope, Place::Read, pair.value, told);
    }
    told
}

// What is told behind the operands of a chain but the first.
#[cycle(uses)]
fn told_of_links(
    module: &Module,
    scope: &mut Scope,
    links: &[Link],
    told: Option<Refusal>,
) -> Option<Refusal>
    requires links { AreLinksBelow (length «module».now.exprs) links.now }
    requires sized { IsSized «module».now.names scope.old }
    ensures { Walks «module».now.names scope.old scope.new told result (λ s. uses_in_links s (links_tree (shown «module».now) links.now)) }
{
    let mut told = told;
    for link in links {
        told = told_of_expression(module, scope, Place::Read, link.operand, told);
    }
    told
}

// What is told behind a bound of a slice, where it is there.
#[cycle(uses)]
fn told_of_bound(
    module: &Module,
    scope: &mut Scope,
    bound: Option<ExprId>,
    told: Option<Refusal>,
) -> Option<Refusal>
    requires bound { IsBoundBelow (length «module».now.exprs) bound }
    requires sized { IsSized «module».now.names scope.old }
    ensures { Walks «module».now.names scope.old scope.new told result (λ s. uses_in_bound s (bound_tree (shown «module».now) bound)) }
{
    match bound {
        Some(e) => told_of_expression(module, scope, Place::Read, e, told),
        None => told,
    }
}

/// What is told behind a generator whose expression begins on a line.
#[cycle(uses)]
pub fn told_of_generator(
    module: &Module,
    scope: &mut Scope,
    line: u32,
    generator: &GeneratorNode,
    told: Option<Refusal>,
) -> Option<Refusal>
    requires generator { IsGeneratorBelow (length «module».now.names) (length «module».now.exprs) generator.now }
    requires sized { IsSized «module».now.names scope.old }
    ensures { Walks «module».now.names scope.old scope.new told result (λ s. uses_in_generator s line (generator_tree «module».now.names (shown «module».now) generator.now)) }
{
    let variable = generator.variable;
    let is_private = is_private(module.name_text(variable));
    let told = told_if(told, is_private, line, ProfileFault::Form);
    let told = told_of_expression(module, scope, Place::Walked, generator.iterable, told);
    let was_variable = scope.is_variable(variable);
    scope.set_variable(variable, true);
    let told = told_of_expression(module, scope, Place::Read, generator.element, told);
    let told = told_of_items(module, scope, &generator.conditions, told);
    scope.set_variable(variable, was_variable);
    told
}

/// What is told behind arguments that are read.
#[cycle(uses)]
pub fn told_of_rest(
    module: &Module,
    scope: &mut Scope,
    arguments: &[Argument],
    told: Option<Refusal>,
) -> Option<Refusal>
    requires arguments { AreArgumentsBelow (length «module».now.names) (length «module».now.exprs) arguments.now }
    requires sized { IsSized «module».now.names scope.old }
    ensures { Walks «module».now.names scope.old scope.new told result (λ s. uses_in_rest s (argument_list_tree «module».now.names (shown «module».now) arguments.now)) }
{
    let mut told = told;
    for argument in arguments {
        told = told_of_expression(module, scope, Place::Read, argument.value, told);
    }
    told
}

// What is told behind the second argument of a call, which is the class of an `isinstance`.
#[cycle(uses)]
fn told_of_second(
    module: &Module,
    scope: &mut Scope,
    line: u32,
    function: Option<Builtin>,
    second: ExprId,
    told: Option<Refusal>,
) -> Option<Refusal>
    requires second { second.index < length «module».now.exprs }
    requires sized { IsSized «module».now.names scope.old }
    ensures { Walks «module».now.names scope.old scope.new told result (λ s. uses_in_second s line function (shown «module».now second.index)) }
{
    if is_asked_for(function, stands_for(module, scope, second)) {
        return told;
    }
    let told = told_if(told, is_isinstance(function), line, ProfileFault::Form);
    told_of_expression(module, scope, Place::Read, second, told)
}

// What is told behind the arguments of a call on a line.
#[cycle(uses)]
fn told_of_arguments(
    module: &Module,
    scope: &mut Scope,
    line: u32,
    function: Option<Builtin>,
    arguments: &[Argument],
    told: Option<Refusal>,
) -> Option<Refusal>
    requires arguments { AreArgumentsBelow (length «module».now.names) (length «module».now.exprs) arguments.now }
    requires sized { IsSized «module».now.names scope.old }
    ensures { Walks «module».now.names scope.old scope.new told result (λ s. uses_in_arguments s line function (argument_list_tree «module».now.names (shown «module».now) arguments.now)) }
{
    match arguments {
        [] => told,
        [sole] => { told_of_expression(module, scope, place_of_sole(function), sole.value, told) }
        [first, second, rest @ ..] => {
            let told = told_of_expression(module, scope, Place::Read, first.value, told);
            let told = told_of_second(module, scope, line, function, second.value, told);
            told_of_rest(module, scope, rest, told)
        }
    }
}

// What is told behind what stands between the brackets of a call on a line.
#[cycle(uses)]
fn told_of_brackets(
    module: &Module,
    scope: &mut Scope,
    line: u32,
    function: Option<Builtin>,
    brackets: &ArgumentsNode,
    told: Option<Refusal>,
) -> Option<Refusal>
    requires brackets { IsCallBelow (length «module».now.names) (length «module».now.exprs) brackets.now }
    requires sized { IsSized «module».now.names scope.old }
    ensures { Walks «module».now.names scope.old scope.new told result (λ s. uses_in_call s line function (arguments_tree «module».now.names (shown «module».now) brackets.now)) }
{
    match brackets {
        ArgumentsNode::Generated(generator) => {
            let told = told_if(told, !is_walk(function), line, ProfileFault::Form);
            told_of_generator(module, scope, line, generator, told)
        }
        ArgumentsNode::Listed(arguments) => {
            let is_repeated = scope.are_repeated(module, arguments);
            let told = told_if(told, is_repeated, line, ProfileFault::Duplicate);
            let is_private = are_private(module, arguments);
            let told = told_if(told, is_private, line, ProfileFault::Form);
            let is_misused = is_misused(module, function, arguments);
            let told = told_if(told, is_misused, line, ProfileFault::Form);
            told_of_arguments(module, scope, line, function, arguments, told)
        }
    }
}

// What is told behind a call in its place.
#[cycle(uses)]
fn told_of_call(
    module: &Module,
    scope: &mut Scope,
    place: Place,
    line: u32,
    function: ExprId,
    brackets: &ArgumentsNode,
    told: Option<Refusal>,
) -> Option<Refusal>
    requires function { function.index < length «module».now.exprs }
    requires brackets { IsCallBelow (length «module».now.names) (length «module».now.exprs) brackets.now }
    requires sized { IsSized «module».now.names scope.old }
    ensures { Walks «module».now.names scope.old scope.new told result (λ s. uses place s (call line (shown «module».now function.index) (arguments_tree «module».now.names (shown «module».now) brackets.now))) }
{
    let builtin = builtin_in(stands_for(module, scope, function));
    let told = unless_called(place, told);
    let is_misplaced = is_misplaced(builtin, place);
    let told = told_if(told, is_misplaced, line, ProfileFault::Form);
    let told = told_of_expression(module, scope, Place::Called(line), function, told);
    told_of_brackets(module, scope, line, builtin, brackets, told)
}

// What is told behind an attribute in its place.
#[cycle(uses)]
fn told_of_attribute(
    module: &Module,
    scope: &mut Scope,
    place: Place,
    line: u32,
    object: ExprId,
    name: NameId,
    told: Option<Refusal>,
) -> Option<Refusal>
    requires object { object.index < length «module».now.exprs }
    requires name { name.index < length «module».now.names }
    requires sized { IsSized «module».now.names scope.old }
    ensures { Walks «module».now.names scope.old scope.new told result (λ s. uses place s (attribute line (shown «module».now object.index) (text_of «module».now.names name))) }
{
    if is_old_read(stands_for(module, scope, object), place) {
        let is_unknown = !scope.is_old(module, name);
        return told_if(told, is_unknown, line, ProfileFault::UnknownName);
    }
    let is_private = is_private(module.name_text(name));
    let told = told_if(told, is_private, line, ProfileFault::Form);
    told_of_expression(module, scope, Place::Read, object, told)
}

// What is told behind the parts of an expression, which are read.
#[cycle(uses)]
fn told_of_parts(
    module: &Module,
    scope: &mut Scope,
    e: ExprId,
    told: Option<Refusal>,
) -> Option<Refusal>
    requires expression { e.index < length «module».now.exprs }
    requires sized { IsSized «module».now.names scope.old }
    ensures { Walks «module».now.names scope.old scope.new told result (λ s. uses_in_parts s (shown «module».now e.index)) }
{
    match module.expr(e) {
        ExprNode::List { items, .. } => told_of_items(module, scope, items, told),
        ExprNode::Dict { pairs, .. } => told_of_pairs(module, scope, pairs, told),
        ExprNode::Comprehension { line, generator } => {
            told_of_generator(module, scope, *line, generator, told)
        }
        ExprNode::Index { object, index, .. } => {
            let told = told_of_expression(module, scope, Place::Read, *object, told);
            told_of_expression(module, scope, Place::Read, *index, told)
        }
        ExprNode::Slice {
            object,
            from,
            to,
            ..
        } => {
            let told = told_of_expression(module, scope, Place::Read, *object, told);
            let told = told_of_bound(module, scope, *from, told);
            told_of_bound(module, scope, *to, told)
        }
        ExprNode::Prefixed { operand, .. } => {
            told_of_expression(module, scope, Place::Read, *operand, told)
        }
        ExprNode::Binary { left, right, .. } => {
            let told = told_of_expression(module, scope, Place::Read, *left, told);
            told_of_expression(module, scope, Place::Read, *right, told)
        }
        ExprNode::Chain { first, links, .. } => {
            let told = told_of_expression(module, scope, Place::Read, *first, told);
            told_of_links(module, scope, links, told)
        }
        ExprNode::Choice {
            value,
            condition,
            otherwise,
            ..
        } => {
            let told = told_of_expression(module, scope, Place::Read, *value, told);
            let told = told_of_expression(module, scope, Place::Read, *condition, told);
            told_of_expression(module, scope, Place::Read, *otherwise, told)
        }
        _ => told,
    }
}

/// What is told behind an expression in its place. It takes time linear in the number of nodes of the expression, and calls
/// itself as deep as expressions stand in each other, which the phase of nesting bounds.
#[cycle(uses)]
pub fn told_of_expression(
    module: &Module,
    scope: &mut Scope,
    place: Place,
    e: ExprId,
    told: Option<Refusal>,
) -> Option<Refusal>
    requires expression { e.index < length «module».now.exprs }
    requires sized { IsSized «module».now.names scope.old }
    ensures { Walks «module».now.names scope.old scope.new told result (λ s. uses place s (shown «module».now e.index)) }
{
    match module.expr(e) {
        ExprNode::Name { line, name } => told_of_name(module, scope, place, *line, *name, told),
        ExprNode::Group { inner, .. } => told_of_expression(module, scope, place, *inner, told),
        ExprNode::Attribute { line, object, name } => {
            told_of_attribute(module, scope, place, *line, *object, *name, told)
        }
        ExprNode::Call {
            line,
            function,
            arguments,
        } => told_of_call(module, scope, place, *line, *function, arguments, told),
        _ => told_of_parts(module, scope, e, unless_called(place, told)),
    }
}
