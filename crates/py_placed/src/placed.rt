use py_lines::LineNode;

/// A logical line that was read, in its place.
#[derive(Drop)]
pub struct PlacedLine {
    /// The number of blocks in which it stands.
    pub depth: usize,
    /// The line, from 1, on which its first word starts.
    pub first: u32,
    /// The line, from 1, on which its last word ends.
    pub last: u32,
    pub node: LineNode,
}
