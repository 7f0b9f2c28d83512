ghost use Rattle.std.specs.Prelude.{◌≡◌};
ghost use Rattle.refutation_check.specs.Truth.{negated};

/// A variable, by its number, or the negation of it.
#[derive(Clone, Copy, Debug, PartialEq, Eq)]
pub struct SatLit {
    pub var: usize,
    pub positive: bool,
}

impl SatLit {
    /// The negation.
    pub fn negated(self) -> SatLit
        ensures { result ≡ negated self }
    {
        SatLit {
            var: self.var,
            positive: !self.positive,
        }
    }
}
