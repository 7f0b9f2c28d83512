ghost use Rattle.std.specs.Prelude.{◌≡◌, ◌<◌, ℕ, List, length, map, slice_get, Some, IfOk};
ghost use Rattle.std.specs.Option.{option_map};
ghost use Rattle.spec_uses.specs.Meanings.{given_as, meaning_in};
ghost use Rattle.spec_uses.specs.declared.Meaning as kinds;
ghost use Rattle.py_tree.specs.Arena.{module_tree};
ghost use Rattle.py_tree.specs.Names.{text_of};
ghost use Rattle.py_tree.specs.Stmts.{texts_of};
ghost use Rattle.module_members.specs.Defining.{IsThere, member_in};
ghost use Rattle.name_meanings.specs.Tables.{with_member, with_name, with_names};

use crate::given::given_meaning;
use module_members::{Member, member_of};
use py_tree::{Module, NameId, NamesId};
use spec_uses::Meaning;
use std::alloc::Global;
use std::marker::Model;
use xh_outside::NoMemory;

/// What each name of a module stands for.
#[derive(Drop)]
pub struct Meanings {
    meanings: Vec<Meaning>,
}

impl Model for Meanings {
    ghost use Rattle.std.specs.Prelude.{List};
    ghost use Rattle.spec_uses.specs.declared.Meaning.{Meaning};

    ghost Value = { List Meaning };

    ghost view = { λ m. m.meanings.items };
}

impl Meanings {
    /// What each name of a module stands for: the first definition counts, then built-in functions and exception classes. It
    /// takes time linear in the number of names and definitions. The only error is that there is no memory for it.
    pub fn new(alloc: Global, module: &Module) -> Result<Meanings, NoMemory>
        ensures { IfOk result (λ m. m ≡ map (meaning_in (module_tree «module».now).body) «module».now.names) }
    {
        let mut meanings = given_meanings(alloc, module)?;
        let mut behind = module.top();
        while behind > 0 {
            behind -= 1;
            let member = member_of(module, module.top_stmt(behind));
            define(module, member, &mut meanings);
        }
        Ok(Meanings { meanings })
    }

    /// What a name stands for.
    pub fn get(&self, name: NameId) -> Meaning
        requires { name.index < length self.now }
        ensures { slice_get self.now name.index ≡ Some result }
    {
        self.meanings[name.index]
    }
}

// What each name stands for where no module defines it.
fn given_meanings(alloc: Global, module: &Module) -> Result<Vec<Meaning>, NoMemory>
    ensures { IfOk result (λ v. v.items ≡ map given_as «module».now.names) }
{
    let mut meanings = Vec::new(alloc);
    for index in 0..module.names_count() {
        meanings.push(given_meaning(module.name_text(NameId { index })))?;
    }
    Ok(meanings)
}

// Gives a name another meaning.
fn set(module: &Module, name: NameId, meaning: Meaning, meanings: &mut Vec<Meaning>)
    requires name { name.index < length «module».now.names }
    requires size { length meanings.old.items ≡ length «module».now.names }
    ensures size { length meanings.new.items ≡ length «module».now.names }
    ensures set { (f : List ℕ → kinds.Meaning) → meanings.old.items ≡ map f «module».now.names → meanings.new.items ≡ map (with_name (text_of «module».now.names name) meaning f) «module».now.names }
{
    // its contract tells what holds of every module
    let _ = module.names_count();
    meanings[name.index] = meaning;
}

// Gives the names of a list another meaning.
fn set_all(module: &Module, list: NamesId, meaning: Meaning, meanings: &mut Vec<Meaning>)
    requires list { list.index < length «module».now.lists }
    requires size { length meanings.old.items ≡ length «module».now.names }
    ensures size { length meanings.new.items ≡ length «module».now.names }
    ensures set { (f : List ℕ → kinds.Meaning) → meanings.old.items ≡ map f «module».now.names → meanings.new.items ≡ map (with_names (texts_of «module».now list) meaning f) «module».now.names }
{
    for i in 0..module.names_len(list) {
        set(module, module.names_get(list, i), meaning, meanings);
    }
}

// Gives the names that a statement defines their meaning.
fn define(module: &Module, member: Option<Member>, meanings: &mut Vec<Meaning>)
    requires member { IsThere «module».now member }
    requires size { length meanings.old.items ≡ length «module».now.names }
    ensures size { length meanings.new.items ≡ length «module».now.names }
    ensures set { (f : List ℕ → kinds.Meaning) → meanings.old.items ≡ map f «module».now.names → meanings.new.items ≡ map (with_member (option_map (member_in «module».now) member) f) «module».now.names }
{
    match member {
        None | Some(Member::Unnamed) => {}
        Some(Member::Imported(list)) => set_all(module, list, Meaning::Imported, meanings),
        Some(Member::Constant(name)) => set(module, name, Meaning::Constant, meanings),
        Some(Member::Function(name)) => set(module, name, Meaning::Function, meanings),
        Some(Member::Class(name)) => set(module, name, Meaning::Class, meanings),
    }
}
