//! What the phases of reading ask of lines without a look at their trees: how deep their words go, and whether they
//! stand where they may.
#![tactic(auto)]

mod headers;
mod levels;
mod load;
mod orders;
mod outline;
mod placement;
mod stack;
mod surroundings;
#[cfg(test)]
mod tests;
mod told;

pub use load::Load;
pub use outline::{Form, HeaderKind, Outline, SimpleKind};
pub use placement::first_misplaced;
pub use spec_grammar::Mark;
