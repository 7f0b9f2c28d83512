ghost use Rattle.std.specs.Prelude.{◌≡◌, ◌<◌, ◌||◌, ℕ, List, length, map, IfOk};
ghost use Rattle.std.specs.List.{All, list_any};
ghost use Rattle.spec_contracts.specs.Owners as owners;
ghost use Rattle.spec_types.specs.Signatures.{is_class, is_function};
ghost use Rattle.py_tree.specs.Arena.{State};
ghost use Rattle.contract_lines.specs.Given.{line_in};
ghost use Rattle.given_types.specs.Checked.{checks};
ghost use Rattle.given_types.specs.Giving.{IsClassBelow};
ghost use Rattle.module_functions.specs.declared.function.Function as found;
ghost use Rattle.module_functions.specs.Listed.{function_in};
ghost use Rattle.checked_functions.specs.Owning.{AreMarked, Mark};

use crate::marks::{Marks, marked};
use contract_lines::Contracts;
use module_functions::Function;
use std::alloc::Global;
use xh_outside::NoMemory;

// Whether a class, if there is one, is marked.
fn is_marked(classes: &[bool], class: Option<usize>) -> bool
    requires { IsClassBelow (length classes.now) class }
    ensures { (os : List owners.Owner) → AreMarked (λ k. is_class (Some k)) os classes.now → result ≡ list_any (is_class class) os }
{
    match class {
        Some(number) => classes[number],
        None => false,
    }
}

// Whether a function of this number and class is checked, where the owners of contract lines are marked.
fn is_checked(marks: &Marks, number: usize, class: Option<usize>) -> bool
    requires number { number < length marks.now.functions.items }
    requires class { IsClassBelow (length marks.now.classes.items) class }
    ensures { (m n : ℕ) (os : List owners.Owner) → Mark m n os marks.now → result ≡ (list_any (is_function number) os || list_any (is_class class) os) }
{
    marks.functions[number] || is_marked(&marks.classes, class)
}

/// Whether each of the functions of a module, which has so many classes, is checked. It takes time linear in the number of
/// contract lines, functions and classes.
///
/// # Errors
///
/// There is no memory for it.
pub fn checked(
    alloc: Global,
    contracts: &Contracts,
    functions: &[Function],
    classes: usize,
) -> Result<Vec<bool>, NoMemory>
    requires { All (λ (f : found.Function). IsClassBelow classes f.class) functions.now }
    ensures { (m : State) → IfOk result (λ v. v.items ≡ checks (map (line_in m) contracts.now) 0 (map (function_in m) functions.now)) }
{
    let marks = marked(alloc, contracts, functions.len(), classes)?;
    let mut checked = Vec::new(alloc);
    for i in 0..functions.len() {
        checked.push(is_checked(&marks, i, functions[i].class))?;
    }
    Ok(checked)
}
