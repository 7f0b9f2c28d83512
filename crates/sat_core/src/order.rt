use std::alloc::Global;
use unit_propagation::Table;
use xh_outside::NoMemory;

// How much less a conflict counts than the one after it.
const DECAY: f64 = 0.95;

// Where activities are scaled down, and by how much.
const LIMIT: f64 = 1e100;

const SCALE: f64 = 1e-100;

// The place of a variable that is not in the heap.
const ABSENT: usize = usize::MAX;

// Variables that have no value, the one that took part in conflicts most of late first: a heap.
#[derive(Drop)]
pub(crate) struct Order {
    heap: Vec<usize>,
    // where a variable stands in the heap
    places: Table<usize>,
    activities: Table<f64>,
    // what a conflict counts
    step: f64,
}

impl Order {
    // All of so many variables.
    pub(crate) fn new(alloc: Global, vars: usize) -> Result<Order, NoMemory> {
        let mut order = Order {
            heap: Vec::new(alloc),
            places: Table::new(alloc, vars, ABSENT)?,
            activities: Table::new(alloc, vars, 0.0)?,
            step: 1.0,
        };
        for var in 0..vars {
            order.insert(var)?;
        }
        Ok(order)
    }

    // Counts that a variable took part in a conflict.
    pub(crate) fn bump(&mut self, var: usize) {
        let activity = self.activities.get(var) + self.step;
        self.activities.set(var, activity);
        if activity > LIMIT {
            self.scale_down();
        }
        let place = self.places.get(var);
        self.rise(place);
    }

    // Makes later conflicts count more.
    pub(crate) fn decay(&mut self) {
        self.step = self.step / DECAY;
    }

    // Puts a variable into the heap, if it is not there.
    pub(crate) fn insert(&mut self, var: usize) -> Result<(), NoMemory> {
        if self.places.get(var) != ABSENT {
            return Ok(());
        }
        let place = self.heap.len();
        self.heap.push(var)?;
        self.places.set(var, place);
        self.rise(place);
        Ok(())
    }

    // Takes the first variable out.
    pub(crate) fn pop(&mut self) -> Option<usize> {
        let first = self.heap.first().copied()?;
        let last = self.heap.pop()?;
        self.places.set(first, ABSENT);
        if last != first {
            self.put(0, last);
            self.sink();
        }
        Some(first)
    }

    fn scale_down(&mut self) {
        for var in 0..self.activities.len() {
            self.activities.set(var, self.activities.get(var) * SCALE);
        }
        self.step = self.step * SCALE;
    }

    // Writes a variable to a place of the heap.
    fn put(&mut self, place: usize, var: usize) {
        if let Some(slot) = self.heap.get_mut(place) {
            *slot = var;
            self.places.set(var, place);
        }
    }

    // The activity of the variable at a place, less than any where there is none.
    fn activity_at(&self, place: usize) -> f64 {
        match self.heap.get(place) {
            Some(var) => self.activities.get(*var),
            None => -1.0,
        }
    }

    // Swaps the variables of two places.
    fn exchange(&mut self, a: usize, b: usize) {
        let first = self.heap.get(a).copied();
        let second = self.heap.get(b).copied();
        if let (Some(first), Some(second)) = (first, second) {
            self.put(a, second);
            self.put(b, first);
        }
    }

    // Moves the variable at a place up to where it belongs.
    fn rise(&mut self, place: usize) {
        let mut place = place;
        for _ in 0..usize::BITS {
            if place == 0 || place >= self.heap.len() {
                return;
            }
            let parent = (place - 1) / 2;
            if self.activity_at(place) <= self.activity_at(parent) {
                return;
            }
            self.exchange(place, parent);
            place = parent;
        }
    }

    // Moves the variable at the top down to where it belongs.
    fn sink(&mut self) {
        let mut place = 0usize;
        for _ in 0..usize::BITS {
            let left = place.saturating_mul(2).saturating_add(1);
            let right = left.saturating_add(1);
            let child = if self.activity_at(right) > self.activity_at(left) {
                right
            } else {
                left
            };
            if self.activity_at(child) <= self.activity_at(place) {
                return;
            }
            self.exchange(place, child);
            place = child;
        }
    }
}
