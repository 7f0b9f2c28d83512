ghost use Rattle.std.specs.Prelude.{◌≡◌, ◌<◌, length, map};
ghost use Rattle.spec_forms.specs.Forms.{functions_of, is_passed_over};
ghost use Rattle.spec_names.specs.Members.{member_of};
ghost use Rattle.py_tree.specs.Arena.{module_tree, shown_stmt};
ghost use Rattle.contract_lines.specs.Given.{AreLinesThere, line_in};
ghost use Rattle.first_tree.specs.Arena.{Extends};
ghost use Rattle.first_forms.specs.Formed.{AreAdded, AreFormed, IsFormed, IsThere, checked_at, functions_from};

use crate::bodies::values;
use crate::groups::grouped;
use contract_lines::{ContractLine, Contracts};
use first_promises::{FormError, copy_name, integer_parameters, read_promises};
use first_tree as first;
use first_tree::FnNode;
use module_members::{Member, line_of, member_of};
use py_tree::{Module, NameId, ParameterNode, StmtId, StmtNode};
use std::alloc::Global;

/// A `def` of a module.
#[derive(Clone, Copy)]
pub(crate) struct Definition<'a> {
    pub line: u32,
    pub name: NameId,
    pub parameters: &'a [ParameterNode],
    pub body: &'a [StmtId],
}

// The function of a `def` that has these contract lines. After an error nodes may have been added.
fn checked(
    alloc: Global,
    module: &Module,
    definition: Definition,
    lines: &[ContractLine],
    into: &mut first::Module,
) -> Result<FnNode, FormError>
    requires definition { IsThere «module».now definition }
    requires lines { AreLinesThere «module».now lines.now }
    ensures grown { Extends into.old.nodes into.new.nodes }
    ensures functions { into.new.functions ≡ into.old.functions }
    ensures formed { IsFormed into.new.nodes result (checked_at «module».now definition.entry (map (line_in «module».now) lines.now)) }
{
    let Some(parameters) = integer_parameters(alloc, module, definition.parameters)? else {
        return Err(FormError::NotBuilt(definition.line));
    };
    let promises = read_promises(alloc, module, definition.parameters, lines, into)?;
    let values = values(alloc, module, definition.body, definition.parameters, into)?;
    Ok(FnNode {
        name: copy_name(alloc, module.name_text(definition.name))?,
        line: definition.line,
        parameters,
        preconditions: promises.preconditions,
        permitted: promises.permitted,
        posts: promises.posts,
        values,
    })
}

// Reads the function of a `def`, and adds it where it has contract lines. The nodes of another one are not kept.
fn add_function(
    alloc: Global,
    module: &Module,
    definition: Definition,
    lines: &[ContractLine],
    into: &mut first::Module,
) -> Result<(), FormError>
    requires definition { IsThere «module».now definition }
    requires lines { AreLinesThere «module».now lines.now }
    ensures grown { Extends into.old.nodes into.new.nodes }
    ensures added { AreAdded into.old into.new result (functions_from «module».now definition.entry (map (line_in «module».now) lines.now)) }
{
    if lines.is_empty() {
        let mut unlisted = first::Module::new(alloc);
        values(
            alloc,
            module,
            definition.body,
            definition.parameters,
            &mut unlisted,
        )?;
        return Ok(());
    }
    let function = checked(alloc, module, definition, lines, into)?;
    into.add_function(function)?;
    Ok(())
}

// Whether a statement of a module does nothing when it is run.
fn is_passed_over(module: &Module, s: StmtId) -> bool
    requires { s.index < length «module».now.stmts }
    ensures { result ≡ is_passed_over (member_of (shown_stmt «module».now s.index)) }
{
    matches!(
        member_of(module, s),
        Some(Member::Unnamed | Member::Imported(_))
    )
}

/// The functions of a module that are run, in their order, from its contract lines.
///
/// It takes time linear in the numbers of nodes, of contract lines and of the classes that these name, and for each function
/// in the product of the number of its parameters with the number of its contract lines and statements.
///
/// # Errors
///
/// `NotBuilt` at the first statement or contract line of another form, with its line. Of a function come first its header,
/// then its contract lines, and then its statements. `NoMemory` where there is no memory for the functions.
pub fn functions(
    alloc: Global,
    module: &Module,
    contracts: &Contracts,
) -> Result<first::Module, FormError>
    requires { AreLinesThere «module».now contracts.now }
    ensures { AreFormed result (functions_of (map (line_in «module».now) contracts.now) (module_tree «module».now).body) }
{
    let groups = grouped(alloc, contracts, module.top())?;
    let mut functions = first::Module::new(alloc);
    let mut number = 0;
    for i in 0..module.top() {
        let statement = module.top_stmt(i);
        match module.stmt(statement) {
            StmtNode::Def {
                line,
                name,
                parameters,
                body,
                ..
            } => {
                let definition = Definition {
                    line: *line,
                    name: *name,
                    parameters,
                    body,
                };
                add_function(alloc, module, definition, &groups[number], &mut functions)?;
                number += 1;
            }
            _ => {
                if !is_passed_over(module, statement) {
                    return Err(FormError::NotBuilt(line_of(module, statement)));
                }
            }
        }
    }
    Ok(functions)
}
