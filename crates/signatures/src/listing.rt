ghost use Rattle.std.specs.Prelude.{◌≡◌, ◌&&◌, ℕ, not, length, map, IfOk};
ghost use Rattle.std.specs.List.{All};
ghost use Rattle.spec_names.specs.Headers.{is_self_first};
ghost use Rattle.spec_types.specs.Names.{type_name};
ghost use Rattle.spec_types.specs.Signatures.{typed};
ghost use Rattle.spec_uses.specs.Functions.{FunctionOf};
ghost use Rattle.py_tree.specs.Arena.{module_tree};
ghost use Rattle.given_types.specs.Checked.{signature_as, signatures_as};
ghost use Rattle.given_types.specs.Giving.{AreSignatures, IsClassBelow, IsSignature, signature_in};
ghost use Rattle.module_functions.specs.declared.function.Function as found;
ghost use Rattle.module_functions.specs.Listed as listed;
ghost use Rattle.module_functions.specs.Listed.{function_in};
ghost use Rattle.read_annotations.specs.Reading.{AreListsThere, AreThere, shown_all, shown_lists};
ghost use Rattle.signatures.specs.Written.{annotations};

use crate::giving::given_types;
use given_types::Signature;
use module_functions::{Function, is_self_first};
use py_tree::Module;
use read_annotations::Annotation;
use spec_types::TypeName;
use std::alloc::Global;
use xh_outside::NoMemory;

// Whether a function takes an object of its class, which a constructor makes.
fn takes_self(module: &Module, function: &Function, is_constructor: bool) -> bool
    requires { listed.IsThere «module».now function.now }
    ensures { result ≡ (is_self_first (function_in «module».now function.now).parameters && not is_constructor) }
{
    is_self_first(module, function.parameters(module)) && !is_constructor
}

// A function with what these annotations of its parameters give them.
fn signature(
    alloc: Global,
    module: &Module,
    names: &[TypeName],
    function: &Function,
    is_checked: bool,
    annotated: &[Option<Annotation>],
) -> Result<Signature, NoMemory>
    requires names { names.now ≡ map (type_name (module_tree «module».now).body) «module».now.names }
    requires function { listed.IsThere «module».now function.now }
    requires there { AreThere «module».now annotated.now }
    requires annotated { shown_all «module».now annotated.now ≡ annotations (typed (function_in «module».now function.now)) }
    ensures signature { IfOk result (λ s. signature_in «module».now s ≡ signature_as (module_tree «module».now).body is_checked (function_in «module».now function.now)) }
    ensures there { (n : ℕ) → IsClassBelow n function.now.class → IfOk result (λ s. IsSignature «module».now n s) }
{
    let is_constructor = function.is_constructor(module);
    let takes_self = takes_self(module, function, is_constructor);
    let types = given_types(alloc, module, names, annotated)?;
    Ok(Signature {
        line: function.line(module),
        is_checked,
        class: function.class,
        is_constructor,
        takes_self,
        types,
    })
}

/// Functions with what annotations give their parameters, where marks tell which are checked. It takes time linear in the
/// parameters and their annotations.
///
/// # Errors
///
/// There is no memory for them.
pub fn signatures(
    alloc: Global,
    module: &Module,
    names: &[TypeName],
    functions: &[Function],
    checked: &[bool],
    annotated: &[Vec<Option<Annotation>>],
) -> Result<Vec<Signature>, NoMemory>
    requires names { names.now ≡ map (type_name (module_tree «module».now).body) «module».now.names }
    requires functions { listed.AreThere «module».now functions.now }
    requires checked { length checked.now ≡ length functions.now }
    requires there { AreListsThere «module».now annotated.now }
    requires annotated { shown_lists «module».now annotated.now ≡ map (λ (f : FunctionOf). annotations (typed f)) (map (function_in «module».now) functions.now) }
    ensures signatures { IfOk result (λ v. map (signature_in «module».now) v.items ≡ signatures_as (module_tree «module».now).body checked.now (map (function_in «module».now) functions.now)) }
    ensures there { (n : ℕ) → All (λ (f : found.Function). IsClassBelow n f.class) functions.now → IfOk result (λ v. AreSignatures «module».now n v.items) }
{
    let mut signatures = Vec::new(alloc);
    for i in 0..functions.len() {
        let function = &functions[i];
        signatures.push(signature(alloc, module, names, function, checked[i], &annotated[i])?)?;
    }
    Ok(signatures)
}
