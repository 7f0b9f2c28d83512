use std::alloc::Global;
use xh_outside::NoMemory;

/// Where a clause follows from, by the places of other clauses. Where it is wrong, the clause is only slower to check.
#[derive(Clone, Copy)]
pub struct Reason<'a> {
    /// Clauses that force literals, each by what is known before it.
    pub causes: &'a [usize],
    /// Clauses that force literals where those of the clause are false, each by what is known before it. Of the last one
    /// all literals are false then.
    pub hints: &'a [usize],
}

// Where the causes and the hints of a clause end.
#[derive(Clone, Copy)]
struct Ends {
    causes: usize,
    hints: usize,
}

// The reasons of clauses, by the numbers of the clauses.
#[derive(Drop)]
pub(crate) struct Reasons {
    // causes and hints of one clause, then those of the next
    places: Vec<usize>,
    ends: Vec<Ends>,
}

impl Reasons {
    // None.
    pub(crate) fn new(alloc: Global) -> Reasons {
        Reasons {
            places: Vec::new(alloc),
            ends: Vec::new(alloc),
        }
    }

    // Keeps the reason of a clause. Clauses between it and the last one have none, and later ones lose theirs.
    pub(crate) fn put(&mut self, number: usize, reason: Reason<'_>) -> Result<(), NoMemory> {
        self.ends.truncate(number);
        let start = self.start(self.ends.len());
        self.places.truncate(start);
        for _ in self.ends.len()..number {
            self.ends.push(Ends {
                causes: start,
                hints: start,
            })?;
        }
        self.places.extend_from_slice(reason.causes)?;
        let causes = self.places.len();
        self.places.extend_from_slice(reason.hints)?;
        let hints = self.places.len();
        self.ends.push(Ends { causes, hints })?;
        Ok(())
    }

    // The reason of a clause, empty where it has none.
    pub(crate) fn get(&self, number: usize) -> Reason<'_> {
        let start = self.start(number);
        let ends = match self.ends.get(number) {
            Some(ends) => *ends,
            None => Ends {
                causes: start,
                hints: start,
            },
        };
        Reason {
            causes: self.places.get(start..ends.causes).unwrap_or(&[]),
            hints: self.places.get(ends.causes..ends.hints).unwrap_or(&[]),
        }
    }

    // Where the reason of a clause starts.
    fn start(&self, number: usize) -> usize {
        match number.checked_sub(1) {
            Some(before) => match self.ends.get(before) {
                Some(ends) => ends.hints,
                None => self.places.len(),
            },
            None => 0,
        }
    }
}
