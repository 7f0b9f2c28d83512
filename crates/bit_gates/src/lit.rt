/// A gate of an arena, by its place from 0, or the negation of that gate.
#[derive(Clone, Copy, Debug, PartialEq, Eq, Hash)]
pub struct Lit {
    pub place: usize,
    pub positive: bool,
}

/// What stands at a place of an arena. The operands of an `And` have earlier places.
#[derive(Clone, Copy, Debug, PartialEq, Eq, Hash)]
pub enum Gate {
    True,
    /// The input of this number, from 0.
    Input(usize),
    And(Lit, Lit),
}
