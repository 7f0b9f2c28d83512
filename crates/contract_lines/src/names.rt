ghost use Rattle.std.specs.Prelude.{◌≡◌, ◌<◌, length, map, IfOk};
ghost use Rattle.std.specs.List.{list_all, list_any};
ghost use Rattle.std.specs.Option.{option_map};
ghost use Rattle.std.specs.Str.{bytes_eq};
ghost use Rattle.spec_contracts.specs.ContractLines.{classes_known, is_exception};
ghost use Rattle.contract_entries.specs.Given.{content_in};
ghost use Rattle.py_tree.specs.Names.{AreNamesBelow, text_of};
ghost use Rattle.py_tree.specs.Stmts.{texts_of};
ghost use Rattle.contract_lines.specs.Given.{Grows, IsListThere, optional_names};

use crate::nodes::{add_name, add_names};
use contract_entries::Content;
use py_tree::{Module, NameId, NamesId};
use spec_contracts::EXCEPTION_CLASSES;
use std::alloc::Global;
use xh_outside::{Name, NoMemory};

// Whether a name is one of these texts.
fn is_text(texts: &[&str], name: &str) -> bool
    ensures { result ≡ list_any (λ k. bytes_eq k.now name.now) texts.now }
{
    for text in texts {
        if *text == name {
            return true;
        }
    }
    false
}

// Whether all of these are names of exception classes.
fn are_exceptions(names: &[Name]) -> bool
    ensures { result ≡ list_all is_exception names.now }
{
    for name in names {
        if !is_text(&EXCEPTION_CLASSES, name.as_str()) {
            return false;
        }
    }
    true
}

/// Whether the classes that an entry lists, where it lists any, are exception classes.
pub(crate) fn classes_known(content: &Content) -> bool
    ensures { result ≡ classes_known (content_in content.now) }
{
    match content {
        Content::Classes(names) => are_exceptions(names),
        _ => true,
    }
}

// Adds names to a module, each where it is not there yet.
fn name_ids(alloc: Global, names: &[Name], into: &mut Module) -> Result<Vec<NameId>, NoMemory>
    ensures grown { Grows into.old into.new }
    ensures there { IfOk result (λ v. AreNamesBelow (length into.new.names) v.items) }
    ensures texts { IfOk result (λ v. map (text_of into.new.names) v.items ≡ names.now) }
{
    // its contract tells what holds of every module
    let _ = into.names_count();
    let mut ids = Vec::new(alloc);
    for name in names {
        ids.push(add_name(into, name.as_str())?)?;
    }
    Ok(ids)
}

/// Adds a list of names to a module.
#[tactic(auto, using(crate::proofs::Growth::grows_then))]
pub(crate) fn list(alloc: Global, names: &[Name], into: &mut Module) -> Result<NamesId, NoMemory>
    ensures grown { Grows into.old into.new }
    ensures there { IfOk result (λ l. l.index < length into.new.lists) }
    ensures texts { IfOk result (λ l. texts_of into.new l ≡ names.now) }
{
    let ids = name_ids(alloc, names, into)?;
    add_names(into, &ids)
}

/// Adds a list of names, where there is one.
#[tactic(auto, using(crate::proofs::Growth::grows_same))]
pub(crate) fn optional_list(
    alloc: Global,
    names: &Option<Vec<Name>>,
    into: &mut Module,
) -> Result<Option<NamesId>, NoMemory>
    ensures grown { Grows into.old into.new }
    ensures there { IfOk result (λ o. IsListThere into.new o) }
    ensures texts { IfOk result (λ o. optional_names into.new o ≡ option_map (λ v. v.items) names.now) }
{
    // its contract tells what holds of every module
    let _ = into.names_count();
    match names {
        Some(names) => Ok(Some(list(alloc, names, into)?)),
        None => Ok(None),
    }
}
