use crate::answering::{Answer, checked};
use crate::formula::Reading;
use crate::malformed::{Fault, Malformed, Stop};
use std::alloc::Global;
use std::test::Fail;

// The answer to a text: whether there is a model, or what is wrong with the text.
fn answer(alloc: Global, text: &str) -> Result<bool, Stop> {
    let mut reading = Reading::new(alloc);
    for line in text.lines() {
        reading.read_line(line)?;
    }
    let mut formula = reading.finish()?;
    let solved = formula.solver.solve(&[])?;
    match checked(alloc, &formula, &solved)? {
        Some(Answer::Satisfiable(_)) => Ok(true),
        Some(Answer::Unsatisfiable) => Ok(false),
        None => Err(Stop::Failed),
    }
}

#[test]
fn texts_and_their_answers(rt: HostRuntime) -> Result<(), Fail> {
    let rows: [(&str, bool); 7] = [
        ("p cnf 0 0", true),
        ("p cnf 2 1\n1 -2 0\n", true),
        // comments, empty lines, and clauses over several lines
        ("c a\n\np cnf 2 3\nc b\n1\n2 0 -1 0\n  -2\n0", false),
        ("c p cnf\np  cnf\t3 1\n\t3 0", true),
        ("p cnf 1 1\n0", false),
        ("p cnf 1 2\n1 1 0 -1 1 0", true),
        ("p cnf 2 4\n1 2 0 1 -2 0 -1 2 0 -1 -2 0", false),
    ];
    for (row, (text, want)) in rows.into_iter().enumerate() {
        assert!(rt; answer(rt.alloc(), text) == Ok(want), "in row {row}");
    }
    Ok(())
}

#[test]
fn texts_of_another_form(rt: HostRuntime) -> Result<(), Fail> {
    let rows: [(&str, usize, Fault); 14] = [
        ("", 1, Fault::NoHeader),
        ("c a\n\n", 2, Fault::NoHeader),
        ("1 0\np cnf 1 1", 1, Fault::NoHeader),
        ("p cnf 2", 1, Fault::Header),
        ("p cnf 2 1 3", 1, Fault::Header),
        ("p dnf 2 1", 1, Fault::Header),
        ("p cnf -2 1", 1, Fault::Header),
        ("p cnf 1 1\np cnf 1 1\n1 0", 2, Fault::Header),
        ("p cnf 2 1\nc a\n1 x 0", 3, Fault::Number),
        ("p cnf 2 1\n3 0", 2, Fault::Variable),
        ("p cnf 2 1\n1\n-9223372036854775808 0", 3, Fault::Variable),
        ("p cnf 2 1\n1 0 2 0", 2, Fault::MoreClauses),
        ("p cnf 2 2\n1 0", 2, Fault::FewerClauses),
        ("p cnf 2 1\n1 0 2", 2, Fault::FewerClauses),
    ];
    for (row, (text, line, fault)) in rows.into_iter().enumerate() {
        let want = Err(Stop::Malformed(Malformed { line, fault }));
        assert!(rt; answer(rt.alloc(), text) == want, "in row {row}");
    }
    Ok(())
}
