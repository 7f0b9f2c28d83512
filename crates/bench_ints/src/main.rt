//! Counts the gates of each operation on integers, by width: with two symbolic operands, and with 10 as the second.
//!
//! With the name of an operation it makes that one alone, of two symbolic operands of 128 digits.
#![tactic(auto)]

mod measure;
mod operation;

use measure::{gates, measured};
use operation::OPERATIONS;
use std::{env, io};

const WIDTHS: [usize; 5] = [8, 16, 32, 64, 128];

fn main(rt: HostRuntime) -> io::Result<()> {
    let name = env::args(&rt)?.nth(1);
    for operation in OPERATIONS {
        if let Some(name) = &name {
            if name.as_str() == operation.name() {
                let count = gates(rt.alloc(), operation, 128, false)?;
                println!(rt; "{operation} 128: {count}")?;
            }
            continue;
        }
        for width in WIDTHS {
            let (symbolic, constant) = measured(rt.alloc(), operation, width)?;
            println!(rt; "{operation} {width}: {symbolic}, with 10: {constant}")?;
        }
    }
    Ok(())
}
