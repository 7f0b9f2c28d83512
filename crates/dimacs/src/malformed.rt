use std::alloc::{AllocError, AllocFailed};
use std::{fmt, io};
use xh_outside::NoMemory;

/// What is wrong with a line.
#[derive(Clone, Copy, Debug, PartialEq, Eq)]
pub enum Fault {
    /// A clause comes before the line `p cnf VARIABLES CLAUSES`, or there is none.
    NoHeader,
    /// A line that begins with `p` is not of that form, or is the second one.
    Header,
    /// A word is not a number.
    Number,
    /// A number is that of no variable.
    Variable,
    /// There are more clauses than the header says.
    MoreClauses,
    /// There are fewer clauses, or the last one has no end.
    FewerClauses,
}

impl fmt::Display for Fault {
    fn fmt<W: fmt::Write>(&self, f: &mut fmt::Formatter<W>) -> fmt::Result {
        f.write_str(match self {
            Fault::NoHeader => "a line `p cnf VARIABLES CLAUSES` comes first",
            Fault::Header => "expected `p cnf VARIABLES CLAUSES`, once",
            Fault::Number => "expected a number",
            Fault::Variable => "there is no such variable",
            Fault::MoreClauses => "there are more clauses than the header says",
            Fault::FewerClauses => "there are fewer whole clauses than the header says",
        })
    }
}

/// Input that is not in the DIMACS form: the number of a line, from 1 on, and what is wrong with it.
#[derive(Clone, Copy, Debug, PartialEq, Eq)]
pub struct Malformed {
    pub line: usize,
    pub fault: Fault,
}

impl fmt::Display for Malformed {
    fn fmt<W: fmt::Write>(&self, f: &mut fmt::Formatter<W>) -> fmt::Result {
        let line = self.line;
        let fault = self.fault;
        write!(f, "line {line}: {fault}")
    }
}

/// Why the program stops without an answer.
#[derive(Clone, Copy, Debug, PartialEq, Eq)]
pub enum Stop {
    Malformed(Malformed),
    /// A read or a write failed, there is no memory, or the answer was not right.
    Failed,
}

impl From<NoMemory> for Stop {
    fn from(_: NoMemory) -> Self {
        Stop::Failed
    }
}

impl From<AllocError> for Stop {
    fn from(_: AllocError) -> Self {
        Stop::Failed
    }
}

impl<T: Drop> From<AllocFailed<T>> for Stop {
    fn from(_: AllocFailed<T>) -> Self {
        Stop::Failed
    }
}

impl From<io::Error> for Stop {
    fn from(_: io::Error) -> Self {
        Stop::Failed
    }
}
