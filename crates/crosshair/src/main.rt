//! A checker of Python contracts.
#![tactic(auto)]

mod admission;
mod commands;
mod lines;
mod refusals;
mod report;
mod run;
mod settings;
mod stop;
#[cfg(test)]
mod tests;

use run::run;
use std::env;
use std::io::ErrorKind;
use std::process::ExitCode;
use xh_outside::{DiskFiles, Name, NoMemory, StdSink, Words};

/// The words after the program's name. Arguments that are no text are handed on as no words, which
/// are refused. The only error is that there is no memory for them.
fn words<R: env::Env + AllocGlobal>(rt: &R) -> Result<Words, NoMemory> {
    let alloc = rt.alloc();
    let mut words = Words::new(alloc);
    match env::args(rt) {
        Ok(args) => {
            for arg in args.skip(1) {
                words.push(Name::from_str(alloc, arg.as_str())?)?;
            }
            Ok(words)
        }
        Err(error) if error.kind() == ErrorKind::OutOfMemory => Err(NoMemory),
        Err(_) => Ok(words),
    }
}

fn main(rt: HostRuntime) -> ExitCode {
    let Ok(words) = words(&rt) else {
        return ExitCode::from(3);
    };
    let mut files = DiskFiles::new(rt);
    let mut out = StdSink::new(rt.stdout());
    let mut err = StdSink::new(rt.stderr());
    ExitCode::from(run(rt.alloc(), &words, &mut files, &mut out, &mut err))
}
