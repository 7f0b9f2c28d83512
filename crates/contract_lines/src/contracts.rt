ghost use Rattle.std.specs.Prelude.{◌≡◌, ◌++◌, ◌∷◌, [], length, slice_get, OnOk, OnErr};

use contract_owners::Owner;
use py_tree::{ExprId, NamesId};
use spec_contracts::LineKind;
use std::alloc::Global;
use std::marker::Model;
use xh_outside::NoMemory;

/// A contract line with one expression or one list of classes.
#[derive(Clone, Copy, Debug, PartialEq, Eq)]
pub struct ContractLine {
    pub owner: Owner,
    pub kind: LineKind,
    /// The line of the expression, from 1, which in a block is not that of `post:`.
    pub line: u32,
    /// The expression, which is there for all kinds but `Raises`.
    pub expr: Option<ExprId>,
    /// The exception classes for `Raises`, and the names in brackets where a line has brackets.
    pub names: Option<NamesId>,
}

/// The contract lines of a module, in their order.
#[derive(Drop)]
pub struct Contracts {
    lines: Vec<ContractLine>,
}

impl Model for Contracts {
    ghost use Rattle.std.specs.Prelude.{List};
    ghost use Rattle.contract_lines.specs.declared.contracts.ContractLine.{ContractLine};

    ghost Value = { List ContractLine };

    ghost view = { λ c. c.lines.items };
}

impl Contracts {
    /// No contract line. It takes no memory yet.
    pub fn new(alloc: Global) -> Contracts
        ensures { result ≡ [] }
    {
        Contracts {
            lines: Vec::new(alloc),
        }
    }

    /// Appends a line. Where there is no memory for it, the list stays as it was.
    pub fn push(&mut self, line: ContractLine) -> Result<(), NoMemory>
        ensures ok { OnOk result (self.new ≡ self.old ++ line ∷ []) }
        ensures refused { OnErr result (self.new ≡ self.old) }
    {
        self.lines.push(line)?;
        Ok(())
    }

    /// The number of lines.
    pub fn lines(&self) -> usize
        ensures { result ≡ length self.now }
    {
        self.lines.len()
    }

    /// The line of this place, from 0. It is None exactly where `i` is not below the number of lines.
    pub fn get(&self, i: usize) -> Option<ContractLine>
        ensures { result ≡ slice_get self.now i }
    {
        self.lines.get(i).copied()
    }
}
