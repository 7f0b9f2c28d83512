/// A variable, by its number below 2^63, or the negation of it.
#[derive(Clone, Copy, PartialEq, Eq, PartialOrd, Ord)]
pub struct Literal {
    // twice the number of the variable, and one more for the negation
    code: usize,
}

impl Literal {
    /// The variable or its negation.
    pub fn new(var: usize, positive: bool) -> Literal {
        Literal {
            code: var << 1 | usize::from(!positive),
        }
    }

    /// The variable.
    pub fn var(self) -> usize {
        self.code >> 1
    }

    /// Whether it is the variable itself.
    pub fn is_positive(self) -> bool {
        self.code & 1 == 0
    }

    /// The negation.
    pub fn negated(self) -> Literal {
        Literal {
            code: self.code ^ 1,
        }
    }

    /// The place of the literal in a table of all literals.
    pub fn index(self) -> usize {
        self.code
    }
}
