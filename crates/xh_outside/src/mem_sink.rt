ghost use Rattle.std.specs.Prelude.{◌≡◌, ◌<◌, ◌-◌, [], Some, None, IfOk, vec_len, vec_capacity};

use crate::due::{is_due, next_left};
use crate::{Failed, NoMemory, Sink};
use std::alloc::Global;
use std::marker::Model;

/// A sink in memory, with room for a fixed number of bytes, which tells what it holds. One write can
/// be made to fail.
#[derive(Drop)]
pub struct MemSink {
    buffer: Vec<u8>,
    room: usize,
    due: Option<u64>,
    faults: u64,
}

impl Model for MemSink {
    ghost use Rattle.std.specs.Prelude.{◌≤◌, vec_len, vec_capacity};
    ghost use Rattle.xh_outside.specs.Memory.{SinkState};

    ghost Value = { SinkState };

    ghost view = { λ s. record { written = s.buffer.items; room = s.room; due = s.due; faults = s.faults } };

    ghost invariant = { λ s. (vec_len s.buffer ≤ s.room) × (s.room ≤ vec_capacity s.buffer) };
}

impl MemSink {
    /// An empty sink with room for so many bytes. It takes all its memory here, so that no write
    /// needs any. The only error is that there is no memory for it.
    pub fn new(alloc: Global, room: usize) -> Result<MemSink, NoMemory>
        ensures { IfOk result (λ sink. sink ≡ record { written = []; room = room; due = None; faults = 0 }) }
    {
        Ok(MemSink {
            buffer: Vec::with_capacity(alloc, room)?,
            room,
            due: None,
            faults: 0,
        })
    }

    /// Makes the write of this number from now on fail, once: the next write is number 1. It takes
    /// the place of an earlier one. The write of an empty piece doesn't count.
    pub fn fail_at(&mut self, call: u64)
        requires { 0 < call }
        ensures { self.new ≡ record self.old { due = Some (call - 1) } }
    {
        self.due = Some(call - 1);
    }

    /// All the bytes that were written.
    pub fn written(&self) -> &[u8]
        ensures { result.now ≡ self.now.written }
    {
        self.buffer.as_slice()
    }
}

impl Sink for MemSink {
    ghost use Rattle.std.specs.Prelude.{◌≤◌, length};
    ghost use Rattle.xh_outside.specs.Causes.{HasCause};
    ghost use Rattle.xh_outside.specs.Memory.{write_answer, after_write};
    ghost use Rattle.xh_outside.specs.Writing.{Takes};

    ghost bytes = { λ s. Some s.written };

    ghost faults = { λ s. s.faults };

    // The last two clauses are more than the trait asks: a write takes what fits, and fails exactly
    // where it is made to, or where a piece that is not empty finds no room.
    fn write(&mut self, piece: &[u8]) -> Result<usize, Failed>
        ensures bound { IfOk result (λ n. n ≤ length piece.now) }
        ensures progress { IfOk result (λ n. 0 < length piece.now → 0 < n) }
        ensures bytes { Takes (Some self.old.written) (Some self.new.written) piece.now result }
        ensures cause { HasCause self.old.faults self.new.faults result }
        ensures answer { result ≡ write_answer self.old piece.now }
        ensures after { self.new ≡ after_write self.old piece.now }
    {
        if piece.is_empty() {
            return Ok(0);
        }
        let is_due = is_due(self.due);
        self.due = next_left(self.due);
        let count = piece.len().min(self.room - self.buffer.len());
        if is_due || count == 0 {
            self.faults = self.faults.saturating_add(1);
            return Err(Failed);
        }
        let (front, _) = piece.split_at(count);
        self.buffer.extend_from_slice(front).unwrap();
        Ok(count)
    }
}
