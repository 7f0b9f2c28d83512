ghost use Rattle.std.specs.Prelude.{◌≡◌, ◌<◌, chars, length, map, IfOk, OnOk};
ghost use Rattle.spec_contracts.specs.Owners as members;
ghost use Rattle.spec_contracts.specs.ContractLines.{all_lines, all_refusals, contracts_of, is_misplaced, lines_among, lines_of, refusals_among, refusals_in};
ghost use Rattle.contract_entries.specs.Given.{all_entries, entries_in};
ghost use Rattle.contract_owners.specs.Members.{AreThere, owned_in, owner_in};
ghost use Rattle.py_tree.specs.Arena.{module_tree};
ghost use Rattle.contract_lines.specs.Given.{GivesContracts, Grows, HaveSame, Reads};

use crate::entries::{Head, Reading, read_entry};
use crate::errors::error_of;
use crate::names::optional_list;
use crate::parameters::{are_known, parameter_names};
use crate::sets::TextSet;
use crate::{ContractError, Contracts};
use contract_entries::{Docstring, Promise, promises};
use contract_owners::{Owned, Owner, docstring, owners};
use py_tree::Module;
use spec_contracts::LineKind;
use std::alloc::Global;
use xh_outside::NoMemory;

// Whether a contract line stands in a docstring of the other kind.
fn is_misplaced(owner: Owner, kind: LineKind) -> bool
    ensures { result ≡ is_misplaced (owner_in owner) kind }
{
    match owner {
        Owner::Function(_) => kind == LineKind::Invariant,
        Owner::Class(_) => kind != LineKind::Invariant,
    }
}

// Reads a contract line of a function, which has parameters, or of a class.
fn read_promise(
    alloc: Global,
    owner: Owner,
    parameters: &TextSet,
    promise: &Promise,
    into: &mut Module,
    reading: &mut Reading,
) -> Result<(), NoMemory>
    ensures grown { Grows into.old into.new }
    ensures read { OnOk result ((o : members.Owned) → o.owner ≡ owner_in owner → HaveSame parameters.now o.parameters → Reads into.old into.new reading.old reading.new (lines_among o (entries_in promise.now)) (refusals_among o (entries_in promise.now))) }
{
    // its contract tells what holds of every module
    let _ = into.names_count();
    let head = Head {
        owner,
        kind: promise.kind,
        line: promise.line,
        names: optional_list(alloc, &promise.names, into)?,
        is_known: are_known(parameters, &promise.names),
        is_misplaced: is_misplaced(owner, promise.kind),
    };
    for entry in &promise.entries {
        read_entry(alloc, head, entry, into, reading)?;
    }
    Ok(())
}

// Reads the contract lines of a function, which has parameters, or of a class.
fn read_promises(
    alloc: Global,
    owner: Owner,
    parameters: &TextSet,
    promises: &[Promise],
    into: &mut Module,
    reading: &mut Reading,
) -> Result<(), NoMemory>
    ensures grown { Grows into.old into.new }
    ensures read { OnOk result ((o : members.Owned) → o.owner ≡ owner_in owner → HaveSame parameters.now o.parameters → Reads into.old into.new reading.old reading.new (lines_among o (all_entries promises.now)) (refusals_among o (all_entries promises.now))) }
{
    // its contract tells what holds of every module
    let _ = into.names_count();
    for promise in promises {
        read_promise(alloc, owner, parameters, promise, into, reading)?;
    }
    Ok(())
}

// The code points of a text.
fn characters(alloc: Global, text: &str) -> Result<Vec<char>, NoMemory>
    ensures { IfOk result (λ v. v.items ≡ chars text.now) }
{
    let characters = text.chars().collect(alloc)?;
    Ok(characters)
}

// Reads the docstring of a function or class, where it has one.
#[tactic(auto, using(crate::proofs::Growth::grows_same))]
fn read_owned(
    alloc: Global,
    owned: Owned,
    into: &mut Module,
    reading: &mut Reading,
) -> Result<(), NoMemory>
    requires { owned.statement.index < length into.old.stmts }
    ensures grown { Grows into.old into.new }
    ensures read { OnOk result (Reads into.old into.new reading.old reading.new (lines_of (owned_in into.old owned)) (refusals_in (owned_in into.old owned))) }
{
    // its contract tells what holds of every module
    let _ = into.names_count();
    let Some(part) = docstring(into, owned.statement) else {
        return Ok(());
    };
    let letters = characters(alloc, part.source.as_str())?;
    let docstring = Docstring {
        letters: &letters,
        raw: part.raw,
        line: part.line,
        indent: part.indent,
    };
    let promises = promises(alloc, docstring)?;
    let parameters = parameter_names(alloc, into, owned.statement)?;
    read_promises(alloc, owned.owner, &parameters, &promises, into, reading)
}

// Reads the docstrings of functions and classes.
fn read_all(
    alloc: Global,
    owners: &[Owned],
    into: &mut Module,
    reading: &mut Reading,
) -> Result<(), NoMemory>
    requires { AreThere into.old owners.now }
    ensures grown { Grows into.old into.new }
    ensures read { OnOk result (Reads into.old into.new reading.old reading.new (all_lines (map (owned_in into.old) owners.now)) (all_refusals (map (owned_in into.old) owners.now))) }
{
    // its contract tells what holds of every module
    let _ = into.names_count();
    for owned in owners {
        read_owned(alloc, *owned, into, reading)?;
    }
    Ok(())
}

/// The contract lines of the docstrings of a module, in their order. Their expressions and names are added to the module,
/// which keeps what was there; after an error too it may have more of them. It takes time linear in the size of the
/// docstrings and in the number of statements of the module and of its classes, but for the look-up of names, which takes
/// constant time on average.
///
/// # Errors
///
/// The refusal with the smallest line, and at one line the one that stands first in [`ContractError`]. `NoMemory` where
/// there is no memory for the contract lines, and for a docstring whose lines have no numbers below 2^32 or that holds an
/// expression of 2 GiB or more.
#[tactic(auto, using(crate::proofs::Growth::grows_same, crate::proofs::Later::tree_kept))]
pub fn conditions(alloc: Global, module: &mut Module) -> Result<Contracts, ContractError>
    ensures grown { Grows «module».old «module».new }
    ensures tree { module_tree «module».new ≡ module_tree «module».old }
    ensures contracts { GivesContracts «module».new result (contracts_of (module_tree «module».old).body) }
{
    // its contract tells what holds of every module
    let _ = module.names_count();
    let owners = owners(alloc, module)?;
    let mut reading = Reading {
        lines: Contracts::new(alloc),
        refusal: None,
    };
    read_all(alloc, &owners, module, &mut reading)?;
    match reading.refusal {
        Some(refusal) => Err(error_of(refusal)),
        None => Ok(reading.lines),
    }
}
