ghost use Rattle.std.specs.Prelude.{◌≡◌, ◌++◌, IfOk};
ghost use Rattle.spec_first_trees.specs.Classes.{class_named, first_named};
ghost use Rattle.spec_forms.specs.Forms.{classes_of};
ghost use Rattle.contract_lines.specs.Given.{IsListThere, optional_names};

use first_tree::{CLASS_NAMES, ExcClass};
use py_tree::{Module, NamesId};
use xh_outside::NoMemory;

// The first of these classes that has a name.
fn first_named(classes: &[(&str, ExcClass)], name: &str) -> Option<ExcClass>
    ensures { result ≡ first_named (λ k. k.0.now) (λ k. k.1) classes.now name.now }
{
    for (known, class) in classes {
        if *known == name {
            return Some(*class);
        }
    }
    None
}

// The exception class of a name.
fn class_named(name: &str) -> Option<ExcClass>
    ensures { result ≡ class_named name.now }
{
    first_named(&CLASS_NAMES, name)
}

/// Adds the exception classes that a list of names has, where there is one. After an error some may have been added.
pub(crate) fn add_classes(
    module: &Module,
    names: Option<NamesId>,
    classes: &mut Vec<ExcClass>,
) -> Result<(), NoMemory>
    requires { IsListThere «module».now names }
    ensures { IfOk result (λ _. classes.new.items ≡ classes.old.items ++ classes_of (optional_names «module».now names)) }
{
    let Some(names) = names else {
        return Ok(());
    };
    for i in 0..module.names_len(names) {
        let name = module.names_get(names, i);
        if let Some(class) = class_named(module.name_text(name)) {
            classes.push(class)?;
        }
    }
    Ok(())
}
