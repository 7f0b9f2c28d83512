ghost use Rattle.std.specs.Prelude.{◌≡◌, ◌<◌, ℕ, List, [], length, map, IfOk, OnOk};
ghost use Rattle.spec_names.specs.Defined.{are_repeated, doubles, method_doubles, onto};
ghost use Rattle.py_tree.specs.Arena.{module_tree, shown_stmt};
ghost use Rattle.py_tree.specs.Names.{AreNamesBelow, text_of};
ghost use Rattle.py_tree.specs.Stmts.{AreStmtsBelow, block_tree};
ghost use Rattle.name_sets.specs.Marks.{marks_of};
ghost use Rattle.told_refusals.specs.Telling.{Tells};

use crate::names::{are_given, defined};
use module_members::{line_of, member_of, method_of, methods};
use name_sets::NameSet;
use py_tree::{Module, NameId, StmtId};
use spec_names::{ProfileFault, Refusal};
use std::alloc::Global;
use told_refusals::told_if;
use xh_outside::NoMemory;

/// Adds names to a set, and tells whether one of them was in it or is that of an earlier one.
pub(crate) fn are_repeated(module: &Module, names: &[NameId], earlier: &mut NameSet) -> bool
    requires there { AreNamesBelow (length «module».now.names) names.now }
    requires size { length earlier.old ≡ length «module».now.names }
    ensures size { length earlier.new ≡ length «module».now.names }
    ensures repeated { (xs : List (List ℕ)) → earlier.old ≡ marks_of xs «module».now.names → result ≡ are_repeated xs (map (text_of «module».now.names) names.now) }
    ensures added { (xs : List (List ℕ)) → earlier.old ≡ marks_of xs «module».now.names → earlier.new ≡ marks_of (onto xs (map (text_of «module».now.names) names.now)) «module».now.names }
{
    // its contract tells what holds of every module
    let _ = module.names_count();
    let mut is_repeated = false;
    for name in names {
        if earlier.contains(*name) {
            is_repeated = true;
        }
        earlier.insert(*name);
    }
    is_repeated
}

// What is told behind the methods of a class. The set is used for it alone.
fn told_of_methods(
    alloc: Global,
    module: &Module,
    body: &[StmtId],
    earlier: &mut NameSet,
    told: Option<Refusal>,
) -> Result<Option<Refusal>, NoMemory>
    requires body { AreStmtsBelow (length «module».now.stmts) body.now }
    requires size { length earlier.old ≡ length «module».now.names }
    ensures size { OnOk result (length earlier.new ≡ length «module».now.names) }
    ensures told { IfOk result (λ new. Tells told new (method_doubles [] (block_tree (shown_stmt «module».now) body.now))) }
{
    earlier.clear()?;
    let mut told = told;
    for s in body {
        let names = defined(alloc, module, method_of(module, *s))?;
        let is_refused = are_repeated(module, &names, earlier);
        let line = line_of(module, *s);
        told = told_if(told, is_refused, line, ProfileFault::Duplicate);
    }
    Ok(told)
}

/// What is told behind the names that a module and its classes define twice.
pub(crate) fn told_of_doubles(
    alloc: Global,
    module: &Module,
    told: Option<Refusal>,
) -> Result<Option<Refusal>, NoMemory>
    ensures { IfOk result (λ new. Tells told new (doubles (module_tree «module».now).body)) }
{
    let mut members = NameSet::new(alloc, module.names_count())?;
    let mut methods_so_far = NameSet::new(alloc, module.names_count())?;
    let mut told = told;
    for i in 0..module.top() {
        let s = module.top_stmt(i);
        let names = defined(alloc, module, member_of(module, s))?;
        let is_repeated = are_repeated(module, &names, &mut members);
        let is_given = are_given(module, &names);
        let line = line_of(module, s);
        told = told_if(told, is_repeated, line, ProfileFault::Duplicate);
        told = told_if(told, is_given, line, ProfileFault::Duplicate);
        told = told_of_methods(alloc, module, methods(module, s), &mut methods_so_far, told)?;
    }
    Ok(told)
}
