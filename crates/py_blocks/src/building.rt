mod clauses;
mod compounds;
mod statements;

pub(crate) use statements::block;
