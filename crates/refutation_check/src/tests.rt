use crate::{Clauses, Known, Reason, Refutation, SatLit, accepts, meets_conflict};
use std::alloc::Global;
use std::test::Fail;
use xh_outside::NoMemory;

const P: SatLit = SatLit {
    var: 0,
    positive: true,
};

const NOT_P: SatLit = SatLit {
    var: 0,
    positive: false,
};

const Q: SatLit = SatLit {
    var: 7,
    positive: true,
};

const NOT_Q: SatLit = SatLit {
    var: 7,
    positive: false,
};

fn clauses_of(alloc: Global, lists: &[&[SatLit]]) -> Result<Clauses, NoMemory> {
    let mut made = Clauses::new(alloc);
    for list in lists {
        made.push(list)?;
    }
    Ok(made)
}

fn is_accepted(
    alloc: Global,
    clauses: &[&[SatLit]],
    assumptions: &[SatLit],
    steps: &[&[SatLit]],
) -> Result<bool, NoMemory> {
    let clauses = clauses_of(alloc, clauses)?;
    let mut refutation = Refutation::new(alloc);
    for step in steps {
        refutation.push(step)?;
    }
    accepts(alloc, &clauses, assumptions, &refutation)
}

#[test]
fn a_refutation_of_four_clauses(rt: HostRuntime) -> Result<(), Fail> {
    let four: [&[SatLit]; 4] = [&[P, Q], &[P, NOT_Q], &[NOT_P, Q], &[NOT_P, NOT_Q]];
    let rows: [(&[&[SatLit]], bool); 7] = [
        (&[], false),
        // nothing is unit yet
        (&[&[]], false),
        (&[&[P], &[]], true),
        // no empty clause at the end
        (&[&[P]], false),
        (&[&[P], &[], &[P]], false),
        // the empty clause follows from a later one only
        (&[&[], &[P], &[]], false),
        // what follows twice
        (&[&[NOT_Q, NOT_Q], &[NOT_P], &[]], true),
    ];
    for (row, (steps, want)) in rows.into_iter().enumerate() {
        assert_eq!(rt;
            is_accepted(rt.alloc(), &four, &[], steps)?,
            want,
            "in row {row}"
        );
    }
    Ok(())
}

#[test]
fn repeated_and_opposite_literals(rt: HostRuntime) -> Result<(), Fail> {
    let rows: [(&[&[SatLit]], &[SatLit], bool); 9] = [
        // a literal that is repeated is one
        (&[&[P, P], &[NOT_P]], &[], true),
        (&[&[P, Q], &[NOT_P]], &[], false),
        (&[&[P, Q], &[NOT_P]], &[NOT_Q], true),
        // a literal beside its negation is no conflict
        (&[&[P, NOT_P]], &[], false),
        (&[&[P, NOT_P]], &[Q], false),
        // the empty clause is one
        (&[&[]], &[], true),
        // and so are opposite assumptions
        (&[], &[P, NOT_P], true),
        (&[], &[P, P], false),
        (&[], &[], false),
    ];
    for (row, (clauses, assumptions, want)) in rows.into_iter().enumerate() {
        let made = clauses_of(rt.alloc(), clauses)?;
        assert_eq!(rt;
            meets_conflict(rt.alloc(), &made, assumptions)?,
            want,
            "in row {row}"
        );
        assert_eq!(rt;
            is_accepted(rt.alloc(), clauses, assumptions, &[&[]])?,
            want,
            "in row {row}"
        );
    }
    Ok(())
}

// Whether a reason shows that P follows, and whether refutations with it are accepted: one that is right, and one that is
// not.
fn answers_with(
    alloc: Global,
    clauses: &Clauses,
    reason: Reason<'_>,
) -> Result<[bool; 3], NoMemory> {
    let mut right = Refutation::new(alloc);
    let mut known = Known::new(alloc, clauses, &[], &right)?;
    let shown = known.shows(clauses, &right, &[P], reason);
    right.push_with_reason(&[P], reason)?;
    right.push(&[])?;
    let mut wrong = Refutation::new(alloc);
    wrong.push_with_reason(&[], reason)?;
    Ok([
        shown,
        accepts(alloc, clauses, &[], &right)?,
        accepts(alloc, clauses, &[], &wrong)?,
    ])
}

#[test]
fn reasons_change_no_answer(rt: HostRuntime) -> Result<(), Fail> {
    let four = clauses_of(
        rt.alloc(),
        &[&[P, Q], &[P, NOT_Q], &[NOT_P, Q], &[NOT_P, NOT_Q]],
    )?;
    // the first is right for the clause P, and the others for nothing
    let rows: [(&[usize], &[usize]); 4] = [
        (&[], &[0, 1]),
        (&[], &[0]),
        (&[3, 9], &[2, 7, 2]),
        (&[0, 1, 2, 3], &[3]),
    ];
    for (row, (causes, hints)) in rows.into_iter().enumerate() {
        let answers = answers_with(rt.alloc(), &four, Reason { causes, hints })?;
        assert!(rt; answers == [row == 0, true, false], "in row {row}");
    }
    Ok(())
}

#[test]
fn clauses_are_read_back(rt: HostRuntime) -> Result<(), Fail> {
    let clauses = clauses_of(rt.alloc(), &[&[P, NOT_Q], &[]])?;
    assert_eq!(rt; clauses.len(), 2);
    assert!(rt; clauses.get(0) == Some([P, NOT_Q].as_slice()));
    assert!(rt; clauses.get(1) == Some([].as_slice()));
    assert!(rt; clauses.get(2).is_none());
    let mut refutation = Refutation::new(rt.alloc());
    assert!(rt; refutation.get(0).is_none());
    refutation.push(&[Q])?;
    assert_eq!(rt; refutation.len(), 1);
    assert!(rt; refutation.get(0) == Some([Q].as_slice()));
    Ok(())
}
