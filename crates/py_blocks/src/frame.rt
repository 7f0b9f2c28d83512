/// Where statements are built.
#[derive(Clone, Copy)]
pub(crate) struct Frame {
    /// How many more blocks may stand in each other there.
    pub room: usize,
    /// How many statements a block may have, and how many branches or handlers a statement.
    pub turns: usize,
    /// The number of blocks round them.
    pub depth: usize,
}
