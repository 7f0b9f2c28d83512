use first_tree::Bounds;
use xh_outside::Words;

/// What the words of the command line ask for: a check of these files under these bounds.
#[derive(Drop)]
pub struct Settings {
    /// The bounds under which each file is checked.
    pub bounds: Bounds,
    /// Whether results that are no errors are printed too.
    pub report_all: bool,
    /// The names of the files, in the order in which they are checked.
    pub targets: Words,
}
