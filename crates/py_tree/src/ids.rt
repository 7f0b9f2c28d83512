/// A name of a module. Equal texts have one id.
#[derive(Clone, Copy, Debug, PartialEq, Eq)]
pub struct NameId {
    pub index: usize,
}

/// A list of names of a module.
#[derive(Clone, Copy, Debug, PartialEq, Eq)]
pub struct NamesId {
    pub index: usize,
}

/// An expression of a module, by the place of its node.
#[derive(Clone, Copy, Debug, PartialEq, Eq)]
pub struct ExprId {
    pub index: usize,
}

/// A type of a module, by the place of its node.
#[derive(Clone, Copy, Debug, PartialEq, Eq)]
pub struct TypeId {
    pub index: usize,
}

/// A statement of a module, by the place of its node.
#[derive(Clone, Copy, Debug, PartialEq, Eq)]
pub struct StmtId {
    pub index: usize,
}
