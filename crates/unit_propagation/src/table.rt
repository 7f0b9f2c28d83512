use std::alloc::Global;
use xh_outside::NoMemory;

/// A table of a fixed length that gives one value wherever it is read outside, and keeps nothing there.
#[derive(Drop)]
pub struct Table<T> {
    entries: Vec<T>,
    outside: T,
}

impl<T: Copy> Table<T> {
    /// A table of so many entries, all of them the value that is read outside.
    pub fn new(alloc: Global, len: usize, outside: T) -> Result<Table<T>, NoMemory> {
        Ok(Table {
            entries: vec![in alloc; outside; len]?,
            outside,
        })
    }

    /// The entry at a place.
    pub fn get(&self, place: usize) -> T {
        match self.entries.get(place) {
            Some(entry) => *entry,
            None => self.outside,
        }
    }

    /// Writes the entry at a place.
    pub fn set(&mut self, place: usize, value: T) {
        if let Some(entry) = self.entries.get_mut(place) {
            *entry = value;
        }
    }

    /// The number of entries.
    pub fn len(&self) -> usize {
        self.entries.len()
    }
}
