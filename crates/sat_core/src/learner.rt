use crate::lesson::{Analysis, Lesson};
use crate::order::Order;
use std::alloc::Global;
use unit_propagation::{Literal, Propagator, Table, Value};
use xh_outside::NoMemory;

// How many conflicts there are before the first restart, and between others at least.
const RESTART: u64 = 100;

// How many clauses are learned before the first ones are forgotten, and how many more each further time.
const KEPT: usize = 2000;

const KEPT_MORE: usize = 300;

// What is found on the way.
#[derive(Drop)]
pub(crate) enum Found {
    // a conflict, and what it teaches
    Conflict(Lesson),
    // a value for each variable, without a conflict
    Values,
}

// A clause that was learned.
#[derive(Clone, Copy)]
struct Learned {
    place: usize,
    // on how many levels its literals became false
    levels: usize,
}

// Looks for values of variables that make clauses true, and learns from conflicts. What it finds is not proved.
#[derive(Drop)]
pub(crate) struct Learner {
    alloc: Global,
    propagator: Propagator,
    analysis: Analysis,
    order: Order,
    // the last value of each variable
    phases: Table<bool>,
    learned: Vec<Learned>,
    // how many learned clauses are too many
    room: usize,
    // conflicts since the last restart, and restarts
    conflicts: u64,
    restarts: u64,
}

impl Learner {
    // No clauses, over so many variables.
    pub(crate) fn new(alloc: Global, vars: usize) -> Result<Learner, NoMemory> {
        Ok(Learner {
            alloc,
            propagator: Propagator::new(alloc, vars)?,
            analysis: Analysis::new(alloc, vars)?,
            order: Order::new(alloc, vars)?,
            phases: Table::new(alloc, vars, false)?,
            learned: Vec::new(alloc),
            room: KEPT,
            conflicts: 0,
            restarts: 0,
        })
    }

    // Makes a literal true, before the search.
    pub(crate) fn assume(&mut self, l: Literal) -> Result<(), NoMemory> {
        if self.propagator.value(l) == Value::Open {
            self.propagator.assign(l, None)?;
        }
        Ok(())
    }

    // Adds a clause behind the others, before the search.
    pub(crate) fn add_clause(&mut self, clause: Vec<Literal>) -> Result<(), NoMemory> {
        self.propagator.add_clause(clause)
    }

    // Whether a variable is true.
    pub(crate) fn is_true(&self, var: usize) -> bool {
        self.propagator.value(Literal::new(var, true)) == Value::True
    }

    // The places of the clauses that force literals for good, in this order, without those that it told before.
    pub(crate) fn new_causes(&mut self) -> Result<Vec<usize>, NoMemory> {
        self.propagator.new_causes()
    }

    // Searches up to the next conflict, or to the end.
    pub(crate) fn search(&mut self) -> Result<Found, NoMemory> {
        for _ in 0..u64::MAX {
            if let Some(place) = self.propagator.propagate()? {
                let lesson = self
                    .analysis
                    .learn(&self.propagator, &mut self.order, place)?;
                return Ok(Found::Conflict(lesson));
            }
            if self.conflicts >= RESTART.saturating_mul(luby(self.restarts)) {
                self.restart()?;
                continue;
            }
            let Some(var) = self.next_variable() else {
                break;
            };
            self.propagator.begin_level()?;
            self.propagator
                .assign(Literal::new(var, self.phases.get(var)), None)?;
        }
        Ok(Found::Values)
    }

    // Keeps what a conflict taught, and goes back to where it forces a literal.
    pub(crate) fn keep(&mut self, lesson: Lesson) -> Result<(), NoMemory> {
        self.conflicts = self.conflicts.saturating_add(1);
        self.backtrack(lesson.level)?;
        self.learned.push(Learned {
            place: self.propagator.len(),
            levels: lesson.levels,
        })?;
        self.propagator.add_clause(lesson.literals)
    }

    // The variable without a value that comes first.
    fn next_variable(&mut self) -> Option<usize> {
        for _ in 0..u64::MAX {
            let var = self.order.pop()?;
            if self.propagator.value(Literal::new(var, true)) == Value::Open {
                return Some(var);
            }
        }
        None
    }

    // Goes back to a level, and remembers the values.
    fn backtrack(&mut self, level: usize) -> Result<(), NoMemory> {
        for l in self.propagator.trail_from(level.saturating_add(1)) {
            self.phases.set(l.var(), l.is_positive());
            self.order.insert(l.var())?;
        }
        self.propagator.backtrack(level);
        Ok(())
    }

    // Begins anew, with what was learned.
    fn restart(&mut self) -> Result<(), NoMemory> {
        self.backtrack(0)?;
        self.conflicts = 0;
        self.restarts = self.restarts.saturating_add(1);
        if self.learned.len() > self.room {
            self.room = self.room.saturating_add(KEPT_MORE);
            self.forget()?;
        }
        Ok(())
    }

    // Forgets half of the learned clauses, those over many levels first. It is called on the first level.
    fn forget(&mut self) -> Result<(), NoMemory> {
        self.learned.sort_unstable_by_key(|clause| clause.levels);
        let half = self.learned.len() / 2;
        let mut kept = Vec::new(self.alloc);
        for (i, clause) in self.learned.iter().enumerate() {
            if i < half || clause.levels <= 2 || is_reason(&self.propagator, clause.place) {
                kept.push(*clause)?;
            } else {
                self.propagator.forget_clause(clause.place);
            }
        }
        self.learned = kept;
        Ok(())
    }
}

// Whether the clause at a place forced the value of a variable.
fn is_reason(propagator: &Propagator, place: usize) -> bool {
    match propagator.clause(place) {
        [first, ..] => propagator.reason(first.var()) == Some(place),
        [] => false,
    }
}

// The numbers 1, 1, 2, 1, 1, 2, 4, 1, 1, 2, 1, 1, 2, 4, 8 and so on, from place 0 on.
fn luby(place: u64) -> u64 {
    let mut rest = place.saturating_add(1);
    for _ in 0..u64::BITS {
        if rest & rest.wrapping_add(1) == 0 {
            return rest / 2 + 1;
        }
        let mut block = 1u64;
        for _ in 0..u64::BITS {
            if block > rest / 2 {
                break;
            }
            block = block.saturating_mul(2);
        }
        rest = rest.saturating_sub(block.saturating_sub(1));
    }
    1
}
