use crate::{Literal, Propagator, Value};
use std::test::Fail;

#[test]
fn a_chain_is_propagated(rt: HostRuntime) -> Result<(), Fail> {
    let alloc = rt.alloc();
    let mut propagator = Propagator::new(alloc, 4)?;
    for var in 0..3usize {
        propagator.add_clause(vec![in alloc;
            Literal::new(var, false),
            Literal::new(var.saturating_add(1), true),
        ]?)?;
    }
    propagator.add_clause(vec![in alloc; Literal::new(0, false), Literal::new(3, false)]?)?;
    assert!(rt; propagator.propagate()?.is_none());
    propagator.begin_level()?;
    propagator.assign(Literal::new(0, true), None)?;
    assert!(rt; propagator.propagate()?.is_some());
    propagator.backtrack(0);
    propagator.add_clause(vec![in alloc; Literal::new(0, false)]?)?;
    assert!(rt; propagator.propagate()?.is_none());
    assert!(rt; propagator.value(Literal::new(0, true)) == Value::False);
    assert!(rt; propagator.value(Literal::new(3, true)) == Value::Open);
    Ok(())
}
