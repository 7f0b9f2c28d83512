use crate::clause_store::ClauseStore;
use crate::{Literal, Table, Value};
use std::alloc::Global;
use std::mem;
use xh_outside::NoMemory;

// A clause that is looked at once a literal is false, unless the other literal, which it also has, is true.
#[derive(Clone, Copy)]
struct Watch {
    place: usize,
    other: Literal,
}

// What comes of a look at a clause of which a watched literal is false.
#[derive(Clone, Copy)]
enum Look {
    // it is still watched there
    Stays(Watch),
    // it is watched elsewhere, or gone
    Leaves,
    // its literals are all false
    Fails(Watch),
}

/// Clauses, by their places, and the literals that they force.
///
/// The first level holds what is forced at all. Each further one begins with literals that are tried.
#[derive(Drop)]
pub struct Propagator {
    alloc: Global,
    clauses: ClauseStore,
    // by literal
    watches: Vec<Vec<Watch>>,
    values: Table<Value>,
    // by variable
    levels: Table<usize>,
    reasons: Table<Option<usize>>,
    positions: Table<usize>,
    // the literals that are true, in the order in which they became so
    trail: Vec<Literal>,
    // the length of the trail at the start of each level but the first
    starts: Vec<usize>,
    // how many literals of the trail are propagated
    propagated: usize,
    // a clause whose literals are all false on the first level
    failed: Option<usize>,
    // the variables whose reasons are looked for
    marks: Table<bool>,
    // how many literals of the first level have their causes told
    told: usize,
}

impl Propagator {
    /// No clauses, over so many variables.
    pub fn new(alloc: Global, vars: usize) -> Result<Propagator, NoMemory> {
        let literals = vars.saturating_mul(2);
        let mut watches = Vec::new(alloc);
        for _ in 0..literals {
            watches.push(Vec::new(alloc))?;
        }
        Ok(Propagator {
            alloc,
            clauses: ClauseStore::new(alloc),
            watches,
            values: Table::new(alloc, literals, Value::Open)?,
            levels: Table::new(alloc, vars, 0)?,
            reasons: Table::new(alloc, vars, None)?,
            positions: Table::new(alloc, vars, 0)?,
            trail: Vec::new(alloc),
            starts: Vec::new(alloc),
            propagated: 0,
            failed: None,
            marks: Table::new(alloc, vars, false)?,
            told: 0,
        })
    }

    /// The value of a literal.
    pub fn value(&self, l: Literal) -> Value {
        self.values.get(l.index())
    }

    /// The level that is worked on, 0 for the first.
    pub fn level(&self) -> usize {
        self.starts.len()
    }

    /// The level on which a variable got its value.
    pub fn level_of(&self, var: usize) -> usize {
        self.levels.get(var)
    }

    /// The place of the clause that forced the value of a variable.
    pub fn reason(&self, var: usize) -> Option<usize> {
        self.reasons.get(var)
    }

    /// The place of a variable that has a value in the trail.
    pub fn position(&self, var: usize) -> usize {
        self.positions.get(var)
    }

    /// The literals that are true, in the order in which they became so.
    pub fn trail(&self) -> &[Literal] {
        self.trail.as_slice()
    }

    /// The literals that became true on a level or a later one.
    pub fn trail_from(&self, level: usize) -> &[Literal] {
        let start = match level.checked_sub(1) {
            Some(before) => self.starts.get(before).copied().unwrap_or(self.trail.len()),
            None => 0,
        };
        self.trail.get(start..).unwrap_or(&[])
    }

    /// The literals of the clause at a place. A clause that has a literal and its negation has none here.
    pub fn clause(&self, place: usize) -> &[Literal] {
        self.clauses.get(place)
    }

    /// The number of clauses.
    pub fn len(&self) -> usize {
        self.clauses.len()
    }

    /// Begins a level.
    pub fn begin_level(&mut self) -> Result<(), NoMemory> {
        self.starts.push(self.trail.len())?;
        Ok(())
    }

    /// Takes back what became true on later levels than this one.
    pub fn backtrack(&mut self, level: usize) {
        let Some(start) = self.starts.get(level).copied() else {
            return;
        };
        for _ in start..self.trail.len() {
            if let Some(l) = self.trail.pop() {
                self.values.set(l.index(), Value::Open);
                self.values.set(l.negated().index(), Value::Open);
            }
        }
        self.starts.truncate(level);
        self.propagated = start;
    }

    /// Makes a literal true whose value is open, because of the clause at a place or as a trial.
    pub fn assign(&mut self, l: Literal, reason: Option<usize>) -> Result<(), NoMemory> {
        let position = self.trail.len();
        self.trail.push(l)?;
        self.values.set(l.index(), Value::True);
        self.values.set(l.negated().index(), Value::False);
        self.levels.set(l.var(), self.starts.len());
        self.reasons.set(l.var(), reason);
        self.positions.set(l.var(), position);
        Ok(())
    }

    /// Adds a clause behind the others, and makes true what it forces. The level is the first one, or all literals of
    /// the clause but one are false.
    pub fn add_clause(&mut self, mut clause: Vec<Literal>) -> Result<(), NoMemory> {
        clause.sort_unstable();
        clause.dedup();
        if has_opposites(&clause) {
            clause.clear();
            self.clauses.push(&clause)?;
            return Ok(());
        }
        self.bring_forward(&mut clause, 0);
        self.bring_forward(&mut clause, 1);
        let place = self.clauses.push(&clause)?;
        match clause.as_slice() {
            [] => self.failed = Some(place),
            [only] => self.force(*only, place)?,
            [first, second, ..] => {
                self.watch(*first, place, *second)?;
                self.watch(*second, place, *first)?;
                if self.value(*second) == Value::False {
                    self.force(*first, place)?;
                }
            }
        }
        Ok(())
    }

    /// Forgets the clause at a place, which is no reason of a value.
    pub fn forget_clause(&mut self, place: usize) {
        self.clauses.forget(place);
    }

    // Swaps the best literal to watch from a place on to this place: one that is not false, or else one that became
    // false late.
    fn bring_forward(&self, clause: &mut Vec<Literal>, to: usize) {
        let mut best = to;
        let mut best_rank = 0usize;
        for (i, l) in clause.iter().enumerate().skip(to) {
            let rank = match self.value(*l) {
                Value::False => self.level_of(l.var()),
                Value::Open | Value::True => usize::MAX,
            };
            if rank > best_rank {
                best = i;
                best_rank = rank;
            }
        }
        if best < clause.len() && to < clause.len() {
            clause.swap(to, best);
        }
    }

    // Makes the one literal of a clause true that is not false.
    fn force(&mut self, l: Literal, place: usize) -> Result<(), NoMemory> {
        match self.value(l) {
            Value::True => {}
            Value::Open => self.assign(l, Some(place))?,
            Value::False => self.failed = Some(place),
        }
        Ok(())
    }

    // Has a clause looked at once a literal is false.
    fn watch(&mut self, l: Literal, place: usize, other: Literal) -> Result<(), NoMemory> {
        if let Some(list) = self.watches.get_mut(l.index()) {
            list.push(Watch { place, other })?;
        }
        Ok(())
    }

    /// Makes true whatever is forced. It gives the place of a clause whose literals are all false, as soon as one is
    /// found.
    pub fn propagate(&mut self) -> Result<Option<usize>, NoMemory> {
        for _ in 0..u64::MAX {
            if self.failed.is_some() {
                return Ok(self.failed);
            }
            let Some(l) = self.trail.get(self.propagated).copied() else {
                return Ok(None);
            };
            self.propagated = self.propagated.saturating_add(1);
            if let Some(place) = self.visit(l.negated())? {
                if self.level() == 0 {
                    self.failed = Some(place);
                }
                return Ok(Some(place));
            }
        }
        Ok(None)
    }

    /// The places of the clauses that force literals on the first level, in this order, without those that it told before.
    pub fn new_causes(&mut self) -> Result<Vec<usize>, NoMemory> {
        let end = self.starts.first().copied().unwrap_or(self.trail.len());
        let mut causes = Vec::new(self.alloc);
        for l in self.trail.get(self.told..end).unwrap_or(&[]) {
            if let Some(reason) = self.reasons.get(l.var()) {
                causes.push(reason)?;
            }
        }
        self.told = end;
        Ok(causes)
    }

    /// The places of the clauses from which it comes that the literals of the clause at a place are false, without those
    /// that force literals on the first level: each forces its literal by what those before it force, and that clause is
    /// the last one.
    pub fn causes(&mut self, place: usize) -> Result<Vec<usize>, NoMemory> {
        let mut causes = vec![in self.alloc; place]?;
        self.mark(place);
        let start = self.starts.first().copied().unwrap_or(self.trail.len());
        for i in (start..self.trail.len()).rev() {
            let Some(l) = self.trail.get(i).copied() else {
                continue;
            };
            let var = l.var();
            if !self.marks.get(var) {
                continue;
            }
            self.marks.set(var, false);
            if let Some(reason) = self.reasons.get(var) {
                causes.push(reason)?;
                self.mark(reason);
            }
        }
        causes.reverse();
        Ok(causes)
    }

    // Marks the variables of the clause at a place that got their values on later levels than the first, and are not yet
    // looked at.
    fn mark(&mut self, place: usize) {
        for l in self.clauses.get(place) {
            if self.levels.get(l.var()) > 0 {
                self.marks.set(l.var(), true);
            }
        }
    }

    // Looks at the clauses of which this literal, now false, is watched.
    fn visit(&mut self, falsified: Literal) -> Result<Option<usize>, NoMemory> {
        let mut list = self.take_watches(falsified);
        let mut kept = 0usize;
        let mut failed = None;
        for i in 0..list.len() {
            let watch = list[i];
            let look = if failed.is_some() {
                Look::Stays(watch)
            } else {
                self.look(watch, falsified)?
            };
            let stays = match look {
                Look::Leaves => continue,
                Look::Stays(stays) => stays,
                Look::Fails(stays) => {
                    failed = Some(stays.place);
                    stays
                }
            };
            if let Some(slot) = list.get_mut(kept) {
                *slot = stays;
            }
            kept = kept.saturating_add(1);
        }
        list.truncate(kept);
        self.put_watches(falsified, list);
        Ok(failed)
    }

    // The clauses that are watched at a literal. None is left there.
    fn take_watches(&mut self, l: Literal) -> Vec<Watch> {
        match self.watches.get_mut(l.index()) {
            Some(list) => mem::replace(list, Vec::new(self.alloc)),
            None => Vec::new(self.alloc),
        }
    }

    // Puts clauses back that were taken from a literal.
    fn put_watches(&mut self, l: Literal, list: Vec<Watch>) {
        if let Some(slot) = self.watches.get_mut(l.index()) {
            *slot = list;
        }
    }

    // Looks at one clause: another literal of it is watched, or its last open literal is forced, or it fails.
    fn look(&mut self, watch: Watch, falsified: Literal) -> Result<Look, NoMemory> {
        if self.value(watch.other) == Value::True {
            return Ok(Look::Stays(watch));
        }
        let place = watch.place;
        let Some(first) = self.turn(place, falsified) else {
            return Ok(Look::Leaves);
        };
        let stays = Watch {
            place,
            other: first,
        };
        if self.value(first) == Value::True {
            return Ok(Look::Stays(stays));
        }
        if let Some(l) = self.replace_second(place) {
            self.watch(l, place, first)?;
            return Ok(Look::Leaves);
        }
        if self.value(first) == Value::False {
            return Ok(Look::Fails(stays));
        }
        self.assign(first, Some(place))?;
        Ok(Look::Stays(stays))
    }

    // Puts a watched literal that is false second in its clause, and gives the first. None where the clause is
    // forgotten.
    fn turn(&mut self, place: usize, falsified: Literal) -> Option<Literal> {
        match self.clauses.get_mut(place) {
            [first, second, ..] => {
                if *first == falsified {
                    mem::swap(first, second);
                }
                Some(*first)
            }
            _ => None,
        }
    }

    // Puts a literal that is not false second in its clause, in place of the one that is there, and gives it. None
    // where there is none.
    fn replace_second(&mut self, place: usize) -> Option<Literal> {
        let clause = self.clauses.get_mut(place);
        for i in 2..clause.len() {
            let l = clause[i];
            if self.values.get(l.index()) != Value::False {
                clause.swap(1, i);
                return Some(l);
            }
        }
        None
    }
}

// Whether ascending literals have one beside its negation.
fn has_opposites(clause: &[Literal]) -> bool {
    clause
        .windows(2)
        .any(|pair| matches!(pair, [a, b] if a.negated() == *b))
}
