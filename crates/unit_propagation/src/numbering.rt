use std::alloc::Global;
use xh_outside::NoMemory;

/// Gives the variables of a formula numbers without large gaps.
#[derive(Drop)]
pub struct Numbering {
    // the variables in ascending order, or none where each variable is its own number
    names: Vec<usize>,
    count: usize,
}

impl Numbering {
    /// A numbering of these variables, which may stand there more than once. Where they have few gaps, each is its own
    /// number.
    pub fn new(mut vars: Vec<usize>) -> Numbering {
        let greatest = vars.iter().copied().max().unwrap_or(0);
        if greatest / 4 <= vars.len() {
            vars.clear();
            return Numbering {
                names: vars,
                count: greatest.saturating_add(1),
            };
        }
        vars.sort_unstable();
        vars.dedup();
        let count = vars.len();
        Numbering { names: vars, count }
    }

    /// More than the greatest number.
    pub fn count(&self) -> usize {
        self.count
    }

    /// The number of a variable. Of one that is not numbered it is another number, or one that is not below the count.
    pub fn number(&self, var: usize) -> usize {
        if self.names.is_empty() {
            return var;
        }
        match self.names.binary_search(&var) {
            Ok(number) => number,
            Err(_) => self.count,
        }
    }

    /// The variable of a number.
    pub fn name(&self, number: usize) -> usize {
        match self.names.get(number) {
            Some(name) => *name,
            None => number,
        }
    }
}
