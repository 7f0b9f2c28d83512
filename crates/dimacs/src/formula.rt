use crate::malformed::{Fault, Malformed, Stop};
use refutation_check::SatLit;
use sat_core::Solver;
use std::alloc::Global;

/// Clauses over variables.
#[derive(Drop)]
pub struct Formula {
    /// The number of variables.
    pub vars: usize,
    /// A solver that has the clauses.
    pub solver: Solver,
}

// What the header says.
#[derive(Clone, Copy)]
struct Header {
    vars: usize,
    clauses: usize,
}

/// A formula of which some lines are read.
#[derive(Drop)]
pub struct Reading {
    line: usize,
    header: Option<Header>,
    solver: Solver,
    // the number of whole clauses, and the literals of the next one
    clauses: usize,
    clause: Vec<SatLit>,
}

impl Reading {
    /// No line is read.
    pub fn new(alloc: Global) -> Reading {
        Reading {
            line: 0,
            header: None,
            solver: Solver::new(alloc),
            clauses: 0,
            clause: Vec::new(alloc),
        }
    }

    /// Reads the next line. After an error the formula is of no use.
    pub fn read_line(&mut self, line: &str) -> Result<(), Stop> {
        self.line = self.line.saturating_add(1);
        let mut words = line.split_whitespace();
        match words.next() {
            None => Ok(()),
            Some(word) if word.starts_with('c') => Ok(()),
            Some("p") => self.read_header(line),
            Some(_) => self.read_literals(line),
        }
    }

    /// The formula, where all lines are read.
    pub fn finish(self) -> Result<Formula, Stop> {
        let Some(header) = self.header else {
            return Err(self.malformed(Fault::NoHeader));
        };
        if self.clauses < header.clauses || !self.clause.is_empty() {
            return Err(self.malformed(Fault::FewerClauses));
        }
        Ok(Formula {
            vars: header.vars,
            solver: self.solver,
        })
    }

    // A fault of the line that was read last.
    fn malformed(&self, fault: Fault) -> Stop {
        Stop::Malformed(Malformed {
            line: self.line.max(1),
            fault,
        })
    }

    // Reads `p cnf VARIABLES CLAUSES`.
    fn read_header(&mut self, line: &str) -> Result<(), Stop> {
        let mut words = line.split_whitespace().skip(1);
        let form = words.next();
        let vars = words.next().and_then(|word| word.parse::<usize>().ok());
        let clauses = words.next().and_then(|word| word.parse::<usize>().ok());
        match (form, vars, clauses, words.next(), self.header) {
            (Some("cnf"), Some(vars), Some(clauses), None, None) => {
                self.header = Some(Header { vars, clauses });
                Ok(())
            }
            _ => Err(self.malformed(Fault::Header)),
        }
    }

    // Reads literals, and the zeros that end clauses.
    fn read_literals(&mut self, line: &str) -> Result<(), Stop> {
        let Some(header) = self.header else {
            return Err(self.malformed(Fault::NoHeader));
        };
        for word in line.split_whitespace() {
            match word.parse::<i64>() {
                Ok(0) => self.end_clause(header)?,
                Ok(number) => self.read_literal(header, number)?,
                Err(_) => return Err(self.malformed(Fault::Number)),
            }
        }
        Ok(())
    }

    // Takes up a literal.
    fn read_literal(&mut self, header: Header, number: i64) -> Result<(), Stop> {
        let Some(var) = (number.unsigned_abs() as usize).checked_sub(1) else {
            return Err(self.malformed(Fault::Variable));
        };
        if var >= header.vars {
            return Err(self.malformed(Fault::Variable));
        }
        self.clause.push(SatLit {
            var,
            positive: number > 0,
        })?;
        Ok(())
    }

    // Adds the clause that ends.
    fn end_clause(&mut self, header: Header) -> Result<(), Stop> {
        if self.clauses >= header.clauses {
            return Err(self.malformed(Fault::MoreClauses));
        }
        self.solver.add_clause(&self.clause)?;
        self.clause.clear();
        self.clauses += 1;
        Ok(())
    }
}
