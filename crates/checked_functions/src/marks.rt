ghost use Rattle.std.specs.Prelude.{◌≡◌, ◌<◌, ◌++◌, ◌∷◌, [], ◌||◌, ◌==◌, ℕ, List, false, length, get_or, IfOk};
ghost use Rattle.spec_contracts.specs.Owners as owners;
ghost use Rattle.contract_owners.specs.Members.{owner_in};
ghost use Rattle.checked_functions.specs.Owning.{Mark, owners_of};

use contract_lines::{Contracts, Owner};
use std::alloc::Global;
use xh_outside::NoMemory;

/// Which functions and classes of a module own contract lines.
#[derive(Drop)]
pub(crate) struct Marks {
    pub(crate) functions: Vec<bool>,
    pub(crate) classes: Vec<bool>,
}

// Marks a number, if there is one.
fn mark(marks: &mut Vec<bool>, number: usize)
    ensures size { length marks.new.items ≡ length marks.old.items }
    ensures marked { (k : ℕ) → k < length marks.old.items → get_or marks.new.items k false ≡ (get_or marks.old.items k false || (number == k)) }
{
    if number < marks.len() {
        marks[number] = true;
    }
}

impl Marks {
    // No marks of so many functions and classes.
    fn new(alloc: Global, functions: usize, classes: usize) -> Result<Marks, NoMemory>
        ensures { IfOk result (λ marks. Mark functions classes [] marks) }
    {
        Ok(Marks {
            functions: vec![in alloc; false; functions]?,
            classes: vec![in alloc; false; classes]?,
        })
    }

    // Marks the owner of a contract line.
    fn add(&mut self, owner: Owner)
        ensures { (m n : ℕ) (os : List owners.Owner) → Mark m n os self.old → Mark m n (os ++ owner_in owner ∷ []) self.new }
    {
        match owner {
            Owner::Function(function) => mark(&mut self.functions, function.index),
            Owner::Class(class) => mark(&mut self.classes, class.index),
        }
    }
}

/// Which of so many functions and classes own these contract lines.
pub(crate) fn marked(
    alloc: Global,
    contracts: &Contracts,
    functions: usize,
    classes: usize,
) -> Result<Marks, NoMemory>
    ensures { IfOk result (λ marks. Mark functions classes (owners_of contracts.now) marks) }
{
    let mut marks = Marks::new(alloc, functions, classes)?;
    for i in 0..contracts.lines() {
        if let Some(line) = contracts.get(i) {
            marks.add(line.owner);
        }
    }
    Ok(marks)
}
