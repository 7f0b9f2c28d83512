ghost use Rattle.std.specs.Prelude.{◌≡◌, ◌≤◌, ◌<◌, length, None, IfOk, IfSome, IsErrOf};
ghost use Rattle.xh_outside.specs.declared.errors.ReadError.TheVariants as read_error;

use crate::{Bytes, Files, ReadError};
use std::alloc::Global;
use std::io::{ErrorKind, Read};
use std::marker::Model;
use std::{fs, rt};

/// How many bytes one call reads from the system at most.
const PIECE_SIZE: usize = 4096;

/// Files of the system, by path. They tell no contents, and no read is made to fail. Contracts see
/// how often a read has failed.
#[derive(Drop)]
pub struct DiskFiles<R> {
    rt: R,
    faults: u64,
}

impl<R> Model for DiskFiles<R> {
    ghost use Rattle.std.specs.Prelude.{ℕ};

    ghost Value = { ℕ };

    ghost view = { λ f. f.faults };
}

impl<R: rt::Files> DiskFiles<R> {
    /// The files that this runtime opens. No read has failed yet.
    pub fn new(rt: R) -> Self
        ensures { result ≡ 0 }
    {
        DiskFiles { rt, faults: 0 }
    }
}

impl<R: rt::Files> Files for DiskFiles<R> {
    ghost contents = { λ _. None };

    ghost left = { λ _. None };

    ghost faults = { λ f. f };

    fn read(&mut self, alloc: Global, name: &str, limit: u64) -> Result<Bytes, ReadError> {
        match read_file(&self.rt, alloc, name, limit) {
            Err(ReadError::Failed) => {
                self.faults = self.faults.saturating_add(1);
                Err(ReadError::Failed)
            }
            answer => answer,
        }
    }
}

/// Opens a file and reads it. Whatever the system refuses is `Failed`.
fn read_file<R: rt::Files>(
    rt: &R,
    alloc: Global,
    name: &str,
    limit: u64,
) -> Result<Bytes, ReadError>
    ensures bound { IfOk result (λ content. length content ≤ limit) }
{
    match fs::open(rt, name) {
        Ok(mut file) => read_to_limit(&mut file, alloc, limit),
        Err(_) => Err(ReadError::Failed),
    }
}

/// Reads to the end, in pieces and not far past the limit, so that a file without an end, as a
/// device, is too long and takes no more memory than any other. A read that was only interrupted is
/// tried again.
fn read_to_limit<F: Read>(file: &mut F, alloc: Global, limit: u64) -> Result<Bytes, ReadError>
    ensures bound { IfOk result (λ content. length content ≤ limit) }

    // Where the bytes of the file are known, the content is all of them, and too long is a file
    // that has more of them than the limit.
    ensures whole { IfOk result (λ content. IfSome (F.remaining file.old) (λ bytes. content ≡ bytes)) }
    ensures too_long { IsErrOf result read_error.TooLong → IfSome (F.remaining file.old) (λ bytes. limit < length bytes) }
{
    let mut content = Bytes::new(alloc);
    let mut buffer = [0u8; PIECE_SIZE];
    for _ in 0..u64::MAX {
        match file.read(&mut buffer) {
            Ok(0) => return Ok(content),
            Ok(count) => {
                if count as u64 > limit - content.as_slice().len() as u64 {
                    return Err(ReadError::TooLong);
                }
                content.extend(&buffer[..count])?;
            }
            Err(error) if error.kind() == ErrorKind::Interrupted => {}
            Err(_) => return Err(ReadError::Failed),
        }
    }
    Err(ReadError::Failed)
}
