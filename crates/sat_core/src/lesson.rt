use crate::order::Order;
use std::alloc::Global;
use unit_propagation::{Literal, Propagator, Table};
use xh_outside::NoMemory;

// How long a chain of reasons is followed to leave a literal out.
const DEPTH: usize = 100;

// What is known of a variable while a conflict is looked at.
#[derive(Clone, Copy, PartialEq, Eq)]
enum Mark {
    Unseen,
    // it is resolved, or one of the clause
    Seen,
    // its value comes from those of the clause
    Implied,
    // its value does not
    Free,
}

// A clause that forces a literal, by the position of that literal in the trail.
#[derive(Clone, Copy)]
struct Hint {
    position: usize,
    place: usize,
}

// What a conflict teaches: a clause, and the places of the clauses that show that it follows.
#[derive(Drop)]
pub(crate) struct Lesson {
    pub(crate) literals: Vec<Literal>,
    pub(crate) hints: Vec<usize>,
    // the level to go back to
    pub(crate) level: usize,
    // on how many levels the literals became false
    pub(crate) levels: usize,
}

// Finds what conflicts teach.
#[derive(Drop)]
pub(crate) struct Analysis {
    alloc: Global,
    marks: Table<Mark>,
    marked: Vec<usize>,
    hints: Vec<Hint>,
    // by level, the number of the conflict in which it was counted last
    counted: Table<usize>,
    conflicts: usize,
}

impl Analysis {
    pub(crate) fn new(alloc: Global, vars: usize) -> Result<Analysis, NoMemory> {
        Ok(Analysis {
            alloc,
            marks: Table::new(alloc, vars, Mark::Unseen)?,
            marked: Vec::new(alloc),
            hints: Vec::new(alloc),
            counted: Table::new(alloc, vars.saturating_add(1), 0)?,
            conflicts: 0,
        })
    }

    // What is learned from the clause at a place, whose literals are all false: a clause of which one literal became
    // false on the last level.
    pub(crate) fn learn(
        &mut self,
        propagator: &Propagator,
        order: &mut Order,
        place: usize,
    ) -> Result<Lesson, NoMemory> {
        self.conflicts = self.conflicts.saturating_add(1);
        self.hints.clear();
        self.hint(usize::MAX, place)?;
        let literals = if propagator.level() == 0 {
            Vec::new(self.alloc)
        } else {
            self.resolve_all(propagator, order, place)?
        };
        let literals = self.without_implied(propagator, literals)?;
        self.clear_marks();
        order.decay();
        Ok(Lesson {
            hints: self.sorted_hints()?,
            level: second_level(propagator, &literals),
            levels: self.count_levels(propagator, &literals),
            literals,
        })
    }

    // Resolves with the reasons of the last level, from the latest on, until one literal of that level is left. It stands
    // first.
    fn resolve_all(
        &mut self,
        propagator: &Propagator,
        order: &mut Order,
        place: usize,
    ) -> Result<Vec<Literal>, NoMemory> {
        let mut literals = Vec::new(self.alloc);
        let mut pending = self.resolve(propagator, order, place, &mut literals)?;
        for (position, l) in propagator.trail().iter().enumerate().rev() {
            if self.marks.get(l.var()) != Mark::Seen {
                continue;
            }
            pending = pending.saturating_sub(1);
            if pending == 0 {
                literals.push(l.negated())?;
                break;
            }
            if let Some(reason) = propagator.reason(l.var()) {
                self.hint(position, reason)?;
                let more = self.resolve(propagator, order, reason, &mut literals)?;
                pending = pending.saturating_add(more);
            }
        }
        literals.reverse();
        Ok(literals)
    }

    // Takes up the literals of a clause that are not yet seen. Those of the last level are counted, others go to the
    // clause that is learned.
    fn resolve(
        &mut self,
        propagator: &Propagator,
        order: &mut Order,
        place: usize,
        literals: &mut Vec<Literal>,
    ) -> Result<usize, NoMemory> {
        let mut pending = 0usize;
        for l in propagator.clause(place) {
            let var = l.var();
            let level = propagator.level_of(var);
            if level == 0 || self.marks.get(var) != Mark::Unseen {
                continue;
            }
            self.mark(var, Mark::Seen)?;
            order.bump(var);
            if level == propagator.level() {
                pending = pending.saturating_add(1);
            } else {
                literals.push(*l)?;
            }
        }
        Ok(pending)
    }

    // The literals without those that come from others of them. The first stays.
    fn without_implied(
        &mut self,
        propagator: &Propagator,
        literals: Vec<Literal>,
    ) -> Result<Vec<Literal>, NoMemory> {
        let mut kept = Vec::new(self.alloc);
        for (i, l) in literals.iter().enumerate() {
            if i == 0 || !self.is_implied(propagator, l.var(), DEPTH)? {
                kept.push(*l)?;
            }
        }
        Ok(kept)
    }

    // Whether the value of a variable comes from those that are seen, by chains of so many reasons.
    fn is_implied(
        &mut self,
        propagator: &Propagator,
        var: usize,
        depth: usize,
    ) -> Result<bool, NoMemory> {
        let Some(reason) = propagator.reason(var) else {
            return Ok(false);
        };
        let Some(depth) = depth.checked_sub(1) else {
            return Ok(false);
        };
        for l in propagator.clause(reason) {
            let other = l.var();
            if other == var || propagator.level_of(other) == 0 {
                continue;
            }
            match self.marks.get(other) {
                Mark::Seen | Mark::Implied => {}
                Mark::Free => return Ok(false),
                Mark::Unseen => {
                    if !self.is_implied(propagator, other, depth)? {
                        self.mark(other, Mark::Free)?;
                        return Ok(false);
                    }
                    self.mark(other, Mark::Implied)?;
                }
            }
        }
        self.hint(propagator.position(var), reason)?;
        Ok(true)
    }

    fn hint(&mut self, position: usize, place: usize) -> Result<(), NoMemory> {
        self.hints.push(Hint { position, place })?;
        Ok(())
    }

    fn mark(&mut self, var: usize, mark: Mark) -> Result<(), NoMemory> {
        self.marked.push(var)?;
        self.marks.set(var, mark);
        Ok(())
    }

    fn clear_marks(&mut self) {
        for var in &self.marked {
            self.marks.set(*var, Mark::Unseen);
        }
        self.marked.clear();
    }

    // The places of the hints, in the order of the trail.
    fn sorted_hints(&mut self) -> Result<Vec<usize>, NoMemory> {
        self.hints.sort_unstable_by_key(|hint| hint.position);
        let mut places = Vec::new(self.alloc);
        for hint in &self.hints {
            places.push(hint.place)?;
        }
        Ok(places)
    }

    // On how many levels literals became false.
    fn count_levels(&mut self, propagator: &Propagator, literals: &[Literal]) -> usize {
        let mut count = 0usize;
        for l in literals {
            let level = propagator.level_of(l.var());
            if self.counted.get(level) != self.conflicts {
                self.counted.set(level, self.conflicts);
                count = count.saturating_add(1);
            }
        }
        count
    }
}

// The last level on which a literal but the first became false.
fn second_level(propagator: &Propagator, literals: &[Literal]) -> usize {
    let mut greatest = 0usize;
    for l in literals.iter().skip(1) {
        greatest = greatest.max(propagator.level_of(l.var()));
    }
    greatest
}
