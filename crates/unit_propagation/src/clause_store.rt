use crate::Literal;
use std::alloc::Global;
use xh_outside::NoMemory;

// Where the literals of a clause stand.
#[derive(Clone, Copy)]
struct Range {
    start: usize,
    end: usize,
}

// The literals of all clauses, one clause behind the other.
#[derive(Drop)]
pub(crate) struct ClauseStore {
    lits: Vec<Literal>,
    ranges: Vec<Range>,
}

impl ClauseStore {
    pub(crate) fn new(alloc: Global) -> ClauseStore {
        ClauseStore {
            lits: Vec::new(alloc),
            ranges: Vec::new(alloc),
        }
    }

    // Appends a clause, and gives its place.
    pub(crate) fn push(&mut self, clause: &[Literal]) -> Result<usize, NoMemory> {
        let place = self.ranges.len();
        let start = self.lits.len();
        self.lits.extend_from_slice(clause)?;
        let end = self.lits.len();
        self.ranges.push(Range { start, end })?;
        Ok(place)
    }

    // The literals of the clause at a place, none where there is no such clause.
    pub(crate) fn get(&self, place: usize) -> &[Literal] {
        let Some(range) = self.ranges.get(place) else {
            return &[];
        };
        match self.lits.get(range.start..range.end) {
            Some(clause) => clause,
            None => &[],
        }
    }

    // The same, to be put in another order.
    pub(crate) fn get_mut(&mut self, place: usize) -> &mut [Literal] {
        let Some(range) = self.ranges.get(place).copied() else {
            return &mut [];
        };
        if range.start <= range.end && range.end <= self.lits.len() {
            &mut self.lits[range.start..range.end]
        } else {
            &mut []
        }
    }

    // Leaves a clause without literals. Its place stays.
    pub(crate) fn forget(&mut self, place: usize) {
        if let Some(range) = self.ranges.get_mut(place) {
            range.end = range.start;
        }
    }

    // The number of clauses.
    pub(crate) fn len(&self) -> usize {
        self.ranges.len()
    }
}
