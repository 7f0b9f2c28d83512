mod calls;
mod displays;
mod generators;
mod operators;
mod primaries;

pub(crate) use calls::arguments;
pub(crate) use operators::expr;
pub(crate) use primaries::prim;
