ghost use Rattle.std.specs.Prelude.{◌≡◌, ◌≤◌, ◌<◌, ◌-◌, [], ◌∷◌, Some, None, IfOk, OnOk, OnErr, List, ℕ, length};
ghost use Rattle.std.specs.Option.{option_copied};
ghost use Rattle.xh_outside.specs.Reading.{content_of, read_of, IsAnswer};

use crate::due::{is_due, next_left};
use crate::{Bytes, Files, Name, NoMemory, ReadError};
use std::alloc::Global;
use std::marker::Model;

/// Files in memory, which tell their contents. One read can be made to fail.
#[derive(Drop)]
pub struct MemFiles {
    alloc: Global,
    files: Vec<(Name, Bytes)>,
    left: Option<u64>,
    faults: u64,
}

impl Model for MemFiles {
    ghost use Rattle.xh_outside.specs.Memory.{FilesState};

    ghost Value = { FilesState };

    ghost view = { λ m. record { contents = m.files.items; left = m.left; faults = m.faults } };
}

impl MemFiles {
    /// No files. It takes no memory yet.
    pub fn new(alloc: Global) -> MemFiles
        ensures { result ≡ record { contents = []; left = None; faults = 0 } }
    {
        MemFiles {
            alloc,
            files: Vec::new(alloc),
            left: None,
            faults: 0,
        }
    }

    /// Sets the content of a name, in place of an earlier one. Where there is no memory for it,
    /// nothing is changed.
    pub fn put(&mut self, name: &str, content: &[u8]) -> Result<(), NoMemory>
        ensures ok { OnOk result (self.new ≡ record self.old { contents = (name.now, content.now) ∷ self.old.contents }) }
        ensures refused { OnErr result (self.new ≡ self.old) }
    {
        let file_name = Name::from_str(self.alloc, name)?;
        let mut bytes = Bytes::new(self.alloc);
        bytes.extend(content)?;
        self.files.insert(0, (file_name, bytes))?;
        Ok(())
    }

    /// Makes the read of this number from now on fail, once: the next read is number 1. It takes the
    /// place of an earlier one. A read that finds no memory doesn't count.
    pub fn fail_at(&mut self, call: u64)
        requires { 0 < call }
        ensures { self.new ≡ record self.old { left = Some (call - 1) } }
    {
        self.left = Some(call - 1);
    }
}

impl Files for MemFiles {
    ghost use Rattle.xh_outside.specs.Causes.{HasReadCause};
    ghost use Rattle.xh_outside.specs.Memory.{after_read};
    ghost use Rattle.xh_outside.specs.Reading.{left_after};

    ghost contents = { λ m. Some m.contents };

    ghost left = { λ m. m.left };

    ghost faults = { λ m. m.faults };

    // The last clause is more than the trait asks: nothing but a failure is counted.
    fn read(&mut self, alloc: Global, name: &str, limit: u64) -> Result<Bytes, ReadError>
        ensures answer { IsAnswer (read_of self.old.contents self.old.left name.now limit) result }
        ensures bound { IfOk result (λ content. length content ≤ limit) }
        ensures contents { Some self.new.contents ≡ Some self.old.contents }
        ensures left { self.new.left ≡ left_after self.old.left result }
        ensures cause { HasReadCause self.old.faults self.new.faults result }
        ensures after { self.new ≡ after_read self.old result }
    {
        match answer(alloc, &self.files, self.left, name, limit) {
            Ok(content) => {
                self.left = next_left(self.left);
                Ok(content)
            }
            Err(ReadError::TooLong) => {
                self.left = next_left(self.left);
                Err(ReadError::TooLong)
            }
            Err(ReadError::Failed) => {
                self.left = next_left(self.left);
                self.faults = self.faults.saturating_add(1);
                Err(ReadError::Failed)
            }
            Err(ReadError::NoMemory) => Err(ReadError::NoMemory),
        }
    }
}

/// The content that is held under a name.
fn find<'a>(files: &'a [(Name, Bytes)], name: &str) -> Option<&'a [u8]>
    ensures { option_copied result ≡ content_of files.now name.now }
{
    for file in files {
        if file.0.as_str() == name {
            return Some(file.1.as_slice());
        }
    }
    None
}

/// What a read answers.
fn answer(
    alloc: Global,
    files: &[(Name, Bytes)],
    left: Option<u64>,
    name: &str,
    limit: u64,
) -> Result<Bytes, ReadError>
    ensures answer { IsAnswer (read_of files.now left name.now limit) result }
    ensures bound { IfOk result (λ content. length content ≤ limit) }
{
    if is_due(left) {
        return Err(ReadError::Failed);
    }
    let Some(content) = find(files, name) else {
        return Err(ReadError::Failed);
    };
    if content.len() as u64 > limit {
        return Err(ReadError::TooLong);
    }
    let mut copy = Bytes::new(alloc);
    copy.extend(content)?;
    Ok(copy)
}
