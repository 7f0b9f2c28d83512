ghost use Rattle.std.specs.Prelude.{◌≡◌, ◌<◌, length};
ghost use Rattle.spec_uses.specs.Expressions.{called_as, name_in, raised_as, read_as, stands_for, unless_called};
ghost use Rattle.spec_uses.specs.Meanings as meanings;
ghost use Rattle.py_tree.specs.Arena.{shown};
ghost use Rattle.py_tree.specs.Names.{text_of};
ghost use Rattle.told_refusals.specs.Telling.{Tells};
ghost use Rattle.name_scopes.specs.Showing.{IsSized, Shows};

use module_members::{bare, is_private};
use name_scopes::Scope;
use py_tree::{ExprId, ExprNode, Module, NameId};
use spec_names::{ProfileFault, Refusal};
use spec_uses::{Meaning, Place};
use told_refusals::told_if;

// What is told behind a name that is read on a line.
fn told_of_read(meaning: Meaning, line: u32, name: &str, told: Option<Refusal>) -> Option<Refusal>
    ensures { Tells told result (read_as meaning line name.now) }
{
    match meaning {
        Meaning::Local | Meaning::Constant => {
            told_if(told, is_private(name), line, ProfileFault::Form)
        }
        Meaning::Result => told,
        Meaning::Unknown => told_if(told, true, line, ProfileFault::UnknownName),
        _ => told_if(told, true, line, ProfileFault::Form),
    }
}

// What is told behind a name on the line `at` that is called by a call on a line.
fn told_of_called(
    meaning: Meaning,
    line: u32,
    at: u32,
    name: &str,
    told: Option<Refusal>,
) -> Option<Refusal>
    ensures { Tells told result (called_as meaning line at name.now) }
{
    match meaning {
        Meaning::Function | Meaning::Class => {
            told_if(told, is_private(name), at, ProfileFault::Form)
        }
        Meaning::BuiltIn(_) => told,
        Meaning::Unknown => told_if(told, true, at, ProfileFault::UnknownName),
        Meaning::Local | Meaning::Result | Meaning::Constant => {
            told_if(told, true, line, ProfileFault::Form)
        }
        Meaning::Old | Meaning::Imported | Meaning::Exception => {
            told_if(told, true, at, ProfileFault::Form)
        }
    }
}

/// What is told behind a class name that a statement on a line raises or catches.
pub fn told_of_raised(meaning: Meaning, line: u32, told: Option<Refusal>) -> Option<Refusal>
    ensures { Tells told result (raised_as meaning line) }
{
    match meaning {
        Meaning::Exception => told,
        Meaning::Unknown => told_if(told, true, line, ProfileFault::UnknownName),
        _ => told_if(told, true, line, ProfileFault::Form),
    }
}

/// What is told behind a name in its place.
pub(crate) fn told_of_name(
    module: &Module,
    scope: &Scope,
    place: Place,
    line: u32,
    name: NameId,
    told: Option<Refusal>,
) -> Option<Refusal>
    requires name { name.index < length «module».now.names }
    requires sized { IsSized «module».now.names scope.now }
    ensures { (s : meanings.Scope) → Shows «module».now.names scope.now s → Tells told result (name_in place (s.meaning (text_of «module».now.names name)) line (text_of «module».now.names name)) }
{
    let meaning = scope.meaning(module, name);
    let text = module.name_text(name);
    match place {
        Place::Called(call) => told_of_called(meaning, call, line, text, told),
        Place::Read | Place::Walked => told_of_read(meaning, line, text, told),
    }
}

/// What is told behind an expression that is no name and no method, where it is called.
pub(crate) fn unless_called(place: Place, told: Option<Refusal>) -> Option<Refusal>
    ensures { Tells told result (unless_called place) }
{
    match place {
        Place::Called(call) => told_if(told, true, call, ProfileFault::Form),
        Place::Read | Place::Walked => told,
    }
}

/// What an expression stands for, where it is a name, perhaps in brackets.
pub(crate) fn stands_for(module: &Module, scope: &Scope, e: ExprId) -> Option<Meaning>
    requires expression { e.index < length «module».now.exprs }
    requires sized { IsSized «module».now.names scope.now }
    ensures { (s : meanings.Scope) → Shows «module».now.names scope.now s → result ≡ stands_for s (shown «module».now e.index) }
{
    match module.expr(bare(module, e)) {
        ExprNode::Name { name, .. } => Some(scope.meaning(module, *name)),
        _ => None,
    }
}
