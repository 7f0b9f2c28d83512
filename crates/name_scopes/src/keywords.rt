ghost use Rattle.std.specs.Prelude.{◌≡◌, ℕ, List, [], false, length, replicate};
ghost use Rattle.spec_names.specs.Defined.{are_repeated, onto};
ghost use Rattle.spec_uses.specs.Expressions.{keywords};
ghost use Rattle.py_tree.specs.Arena.{shown};
ghost use Rattle.py_tree.specs.Exprs.{AreArgumentsBelow, IsNameBelow, argument_list_tree};
ghost use Rattle.name_sets.specs.Marks.{marks_of};
ghost use Rattle.local_names.specs.Adding.{Adds};
ghost use Rattle.name_scopes.specs.Repeating.{keyword_of};

use name_sets::NameSet;
use py_tree::{Argument, Module, NameId};

// Adds a keyword, where there is one, and tells whether it was there.
fn add_keyword(module: &Module, name: Option<NameId>, seen: &mut NameSet) -> bool
    requires name { IsNameBelow (length «module».now.names) name }
    requires size { length seen.old ≡ length «module».now.names }
    ensures added { Adds «module».now.names seen.old seen.new (keyword_of «module».now.names name) }
    ensures repeated { (xs : List (List ℕ)) → seen.old ≡ marks_of xs «module».now.names → result ≡ are_repeated xs (keyword_of «module».now.names name) }
{
    // its contract tells what holds of every module
    let _ = module.names_count();
    match name {
        Some(name) => {
            let was_there = seen.contains(name);
            seen.insert(name);
            was_there
        }
        None => false,
    }
}

/// Adds the keywords of arguments to a set, and tells whether one of them was in it or is that of an earlier one.
pub(crate) fn add_keywords(module: &Module, arguments: &[Argument], seen: &mut NameSet) -> bool
    requires arguments { AreArgumentsBelow (length «module».now.names) (length «module».now.exprs) arguments.now }
    requires size { length seen.old ≡ length «module».now.names }
    ensures added { Adds «module».now.names seen.old seen.new (keywords (argument_list_tree «module».now.names (shown «module».now) arguments.now)) }
    ensures repeated { (xs : List (List ℕ)) → seen.old ≡ marks_of xs «module».now.names → result ≡ are_repeated xs (keywords (argument_list_tree «module».now.names (shown «module».now) arguments.now)) }
{
    let mut is_repeated = false;
    for argument in arguments {
        let was_there = add_keyword(module, argument.name, seen);
        is_repeated = is_repeated || was_there;
    }
    is_repeated
}

/// Leaves the keywords of arguments out of a set that has no other name.
pub(crate) fn leave_keywords(module: &Module, arguments: &[Argument], seen: &mut NameSet)
    requires arguments { AreArgumentsBelow (length «module».now.names) (length «module».now.exprs) arguments.now }
    requires seen { seen.old ≡ marks_of (onto [] (keywords (argument_list_tree «module».now.names (shown «module».now) arguments.now))) «module».now.names }
    ensures { seen.new ≡ replicate (length «module».now.names) false }
{
    // its contract tells what holds of every module
    let _ = module.names_count();
    for argument in arguments {
        if let Some(name) = argument.name {
            seen.set(name, false);
        }
    }
}
