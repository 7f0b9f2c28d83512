//! Answers whether clauses in the DIMACS form have a model.
//!
//! The clauses stand on standard input. The answer is `s SATISFIABLE` with `v` lines that name a literal of each
//! variable, or `s UNSATISFIABLE`, and it is checked before it is printed. Input of another form has one line on standard
//! error, with the number of the line at fault, and the status 2. With the word `times` standard error also tells how
//! long it took to solve and to check.
#![tactic(auto)]

mod answering;
mod formula;
mod malformed;
#[cfg(test)]
mod tests;

use answering::{Answer, checked};
use formula::{Formula, Reading};
use malformed::Stop;
use std::io::{self, BufRead, BufReader};
use std::process::ExitCode;
use std::time::Instant;
use std::{env, fmt};

// How many literals stand on one line of a model.
const LINE: usize = 16;

// Reads a formula from standard input.
fn read<R: Input + AllocGlobal>(rt: &R) -> Result<Formula, Stop> {
    let alloc = rt.alloc();
    let mut reading = Reading::new(alloc);
    for line in BufReader::new(alloc, rt.reader())?.lines(alloc) {
        reading.read_line(line?.as_str())?;
    }
    reading.finish()
}

// Prints the values of all variables.
fn print_values<R: Print + AllocGlobal>(rt: &R, values: &[bool]) -> io::Result<()> {
    let mut line = String::new(rt.alloc());
    for (i, value) in values.iter().enumerate() {
        if i % LINE == 0 && i > 0 {
            println!(rt; "v{line}")?;
            line = String::new(rt.alloc());
        }
        let sign = if *value { "" } else { "-" };
        let var = i + 1;
        write!(&mut line, " {sign}{var}")?;
    }
    println!(rt; "v{line} 0")
}

// Prints an answer.
fn print_answer<R: Print + AllocGlobal>(rt: &R, answer: &Answer) -> io::Result<()> {
    match answer {
        Answer::Satisfiable(values) => {
            println!(rt; "s SATISFIABLE")?;
            print_values(rt, values)
        }
        Answer::Unsatisfiable => println!(rt; "s UNSATISFIABLE"),
    }
}

// Whether the times are asked for.
fn wants_times(rt: &(impl env::Env + Alloc)) -> io::Result<bool> {
    match env::args(rt)?.nth(1) {
        Some(word) => Ok(word.as_str() == "times"),
        None => Ok(false),
    }
}

// Solves a formula, and prints the answer once it is checked.
fn run(rt: &HostRuntime, formula: &mut Formula) -> Result<(), Stop> {
    let start = Instant::now(rt)?;
    let solved = formula.solver.solve(&[])?;
    let solving = start.elapsed(rt)?.as_micros();
    let start = Instant::now(rt)?;
    let answer = checked(rt.alloc(), formula, &solved)?;
    let checking = start.elapsed(rt)?.as_micros();
    if wants_times(rt)? {
        eprintln!(rt; "solved in {solving} us, checked in {checking} us")?;
    }
    match answer {
        Some(answer) => Ok(print_answer(rt, &answer)?),
        None => Err(Stop::Failed),
    }
}

// Reads a formula and answers.
fn read_and_run(rt: &HostRuntime) -> Result<(), Stop> {
    let mut formula = read(rt)?;
    run(rt, &mut formula)
}

fn main(rt: HostRuntime) -> ExitCode {
    match read_and_run(&rt) {
        Ok(()) => ExitCode::SUCCESS,
        Err(Stop::Malformed(fault)) => {
            let _ = eprintln!(rt; "{fault}");
            ExitCode::from(2)
        }
        Err(Stop::Failed) => ExitCode::from(1),
    }
}
