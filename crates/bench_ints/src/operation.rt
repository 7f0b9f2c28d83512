use std::fmt;

/// An operation on two integers.
#[derive(Clone, Copy)]
pub(crate) enum Operation {
    Add,
    Sub,
    Mul,
    DivMod,
    Shl,
    Shr,
    BitAnd,
    BitOr,
    BitXor,
    Lt,
    Eq,
    LtItself,
    EqItself,
}

/// All of them, in the order in which they are printed.
pub(crate) const OPERATIONS: [Operation; 13] = [
    Operation::Add,
    Operation::Sub,
    Operation::Mul,
    Operation::DivMod,
    Operation::Shl,
    Operation::Shr,
    Operation::BitAnd,
    Operation::BitOr,
    Operation::BitXor,
    Operation::Lt,
    Operation::Eq,
    Operation::LtItself,
    Operation::EqItself,
];

impl Operation {
    /// The word for it.
    pub(crate) fn name(&self) -> &'static str {
        match self {
            Operation::Add => "add",
            Operation::Sub => "sub",
            Operation::Mul => "mul",
            Operation::DivMod => "div_mod",
            Operation::Shl => "shl",
            Operation::Shr => "shr",
            Operation::BitAnd => "bit_and",
            Operation::BitOr => "bit_or",
            Operation::BitXor => "bit_xor",
            Operation::Lt => "lt",
            Operation::Eq => "eq",
            Operation::LtItself => "lt_itself",
            Operation::EqItself => "eq_itself",
        }
    }
}

impl fmt::Display for Operation {
    fn fmt<W: fmt::Write>(&self, f: &mut fmt::Formatter<W>) -> fmt::Result {
        f.write_str(self.name())
    }
}
