use crate::{SatModel, Solved, Solver};
use refutation_check::{Clauses, Refutation, SatLit, accepts};
use std::alloc::Global;
use std::test::Fail;
use xh_outside::NoMemory;

const P: SatLit = SatLit {
    var: 3,
    positive: true,
};

const NOT_P: SatLit = SatLit {
    var: 3,
    positive: false,
};

const Q: SatLit = SatLit {
    var: 0,
    positive: true,
};

const NOT_Q: SatLit = SatLit {
    var: 0,
    positive: false,
};

// Whether a literal is true in a model.
fn is_true(model: &SatModel, l: SatLit) -> bool {
    model.value(l.var) == l.positive
}

// Whether all clauses and assumptions are true in a model.
fn is_model(model: &SatModel, clauses: &Clauses, assumptions: &[SatLit]) -> bool {
    for i in 0..clauses.len() {
        if let Some(clause) = clauses.get(i)
            && !clause.iter().any(|l| is_true(model, *l))
        {
            return false;
        }
    }
    assumptions.iter().all(|l| is_true(model, *l))
}

// Whether there is a model, where the answer is one or is a refutation that is accepted. None where it is neither.
fn answer(
    alloc: Global,
    solver: &mut Solver,
    assumptions: &[SatLit],
) -> Result<Option<bool>, NoMemory> {
    match solver.solve(assumptions)? {
        Solved::Sat(model) => {
            if is_model(&model, solver.clauses(), assumptions) {
                Ok(Some(true))
            } else {
                Ok(None)
            }
        }
        Solved::Unsat(refutation) => {
            if accepts(alloc, solver.clauses(), assumptions, &refutation)? {
                Ok(Some(false))
            } else {
                Ok(None)
            }
        }
    }
}

fn solver_of(alloc: Global, clauses: &[&[SatLit]]) -> Result<Solver, NoMemory> {
    let mut solver = Solver::new(alloc);
    for clause in clauses {
        solver.add_clause(clause)?;
    }
    Ok(solver)
}

#[test]
fn answers_of_small_formulas(rt: HostRuntime) -> Result<(), Fail> {
    let rows: [(&[&[SatLit]], &[SatLit], bool); 10] = [
        (&[&[P], &[NOT_P, Q]], &[], true),
        (&[&[P], &[NOT_P, Q]], &[NOT_Q], false),
        (
            &[&[P, Q], &[P, NOT_Q], &[NOT_P, Q], &[NOT_P, NOT_Q]],
            &[],
            false,
        ),
        (&[&[P, Q]], &[NOT_P], true),
        (&[&[P, Q]], &[NOT_P, NOT_Q], false),
        (&[], &[], true),
        (&[], &[P, NOT_P], false),
        (&[&[]], &[], false),
        (&[&[P, P], &[NOT_P, P, Q], &[NOT_P, NOT_P]], &[], false),
        (&[&[P, NOT_P]], &[NOT_Q, NOT_Q], true),
    ];
    for (row, (clauses, assumptions, want)) in rows.into_iter().enumerate() {
        let mut solver = solver_of(rt.alloc(), clauses)?;
        assert!(rt;
            answer(rt.alloc(), &mut solver, assumptions)? == Some(want),
            "in row {row}"
        );
    }
    Ok(())
}

#[test]
fn assumptions_belong_to_one_call(rt: HostRuntime) -> Result<(), Fail> {
    let mut solver = solver_of(rt.alloc(), &[&[P, Q]])?;
    assert!(rt; answer(rt.alloc(), &mut solver, &[NOT_P, NOT_Q])? == Some(false));
    let empty = Refutation::new(rt.alloc());
    assert!(rt; !accepts(rt.alloc(), solver.clauses(), &[NOT_P, NOT_Q], &empty)?);
    match solver.solve(&[NOT_P])? {
        Solved::Sat(model) => {
            assert!(rt; model.value(Q.var) && !model.value(P.var) && !model.value(99));
        }
        Solved::Unsat(_) => assert!(rt; false, "there is a model"),
    }
    assert_eq!(rt; solver.clauses().len(), 1);
    Ok(())
}

#[test]
fn four_pigeons_have_no_room_in_three_holes(rt: HostRuntime) -> Result<(), Fail> {
    let mut solver = Solver::new(rt.alloc());
    for pigeon in 0..4usize {
        let mut clause = Vec::new(rt.alloc());
        for hole in 0..3usize {
            clause.push(SatLit {
                var: 3 * pigeon + hole,
                positive: true,
            })?;
        }
        solver.add_clause(&clause)?;
    }
    for pair in 0..48usize {
        let (first, second, hole) = (pair / 12, pair / 3 % 4, pair % 3);
        if first < second {
            solver.add_clause(&[
                SatLit {
                    var: 3 * first + hole,
                    positive: false,
                },
                SatLit {
                    var: 3 * second + hole,
                    positive: false,
                },
            ])?;
        }
    }
    assert_eq!(rt; solver.clauses().len(), 22);
    assert!(rt; answer(rt.alloc(), &mut solver, &[])? == Some(false));
    Ok(())
}

// The numbers of a fixed generator.
#[derive(Drop)]
struct Numbers {
    state: u64,
}

impl Numbers {
    fn next(&mut self) -> u64 {
        self.state = self
            .state
            .wrapping_mul(6364136223846793005)
            .wrapping_add(1442695040888963407);
        self.state >> 33
    }

    // Literals of four variables.
    fn lits(&mut self, alloc: Global, count: u64) -> Result<Vec<SatLit>, NoMemory> {
        let mut lits = Vec::new(alloc);
        for _ in 0..count {
            let n = self.next() % 8;
            lits.push(SatLit {
                var: (n / 2) as usize,
                positive: n % 2 == 0,
            })?;
        }
        Ok(lits)
    }
}

// The value of a literal of four variables, where the bits are their values.
fn bit_value(bits: u64, l: SatLit) -> bool {
    (bits >> (l.var % 4) & 1 == 1) == l.positive
}

// Whether one of all sixteen assignments makes clauses and assumptions true.
fn is_met(clauses: &Clauses, assumptions: &[SatLit]) -> bool {
    for bits in 0..16u64 {
        let mut met = assumptions.iter().all(|l| bit_value(bits, *l));
        for i in 0..clauses.len() {
            if let Some(clause) = clauses.get(i) {
                met = met && clause.iter().any(|l| bit_value(bits, *l));
            }
        }
        if met {
            return true;
        }
    }
    false
}

#[test]
fn answers_agree_with_a_listing(rt: HostRuntime) -> Result<(), Fail> {
    let mut numbers = Numbers { state: 1 };
    let mut models = 0usize;
    for round in 0..300usize {
        let mut solver = Solver::new(rt.alloc());
        for _ in 0..numbers.next() % 12 {
            // seldom the empty clause
            let first = numbers.next() % 4;
            let count = if first == 0 {
                numbers.next() % 4
            } else {
                first
            };
            solver.add_clause(&numbers.lits(rt.alloc(), count)?)?;
        }
        let count = numbers.next() % 3;
        let assumptions = numbers.lits(rt.alloc(), count)?;
        let found = answer(rt.alloc(), &mut solver, &assumptions)?;
        let want = is_met(solver.clauses(), &assumptions);
        assert!(rt; found == Some(want), "in round {round}");
        if want {
            models = models.saturating_add(1);
        }
    }
    assert!(rt; 60 < models && models < 240, "{models} have a model");
    Ok(())
}
