/// What is known of a literal.
#[derive(Clone, Copy, PartialEq, Eq)]
pub enum Value {
    Open,
    True,
    False,
}
