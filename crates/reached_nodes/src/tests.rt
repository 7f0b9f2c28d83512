use crate::reached;
use std::alloc::{AllocError, Global};
use std::test::Fail;

// The cycle 0 → 1 → 2 → 0, the chain 3 → 4 → 5, whose end also leads to a number that is no node, and 6 → 0.
fn sample(alloc: Global) -> Result<Vec<Vec<usize>>, AllocError> {
    let mut edges = Vec::new(alloc);
    edges.push(vec![in alloc; 1]?)?;
    edges.push(vec![in alloc; 2, 2]?)?;
    edges.push(vec![in alloc; 0]?)?;
    edges.push(vec![in alloc; 4]?)?;
    edges.push(vec![in alloc; 5]?)?;
    edges.push(vec![in alloc; 9]?)?;
    edges.push(vec![in alloc; 0]?)?;
    Ok(edges)
}

#[test]
fn no_node_is_reached_in_an_empty_graph(rt: HostRuntime) -> Result<(), Fail> {
    let edges: Vec<Vec<usize>> = Vec::new(rt.alloc());
    assert!(rt; reached(rt.alloc(), &edges, &[0])?.is_empty());
    Ok(())
}

#[test]
fn edges_are_followed_forward_to_the_end(rt: HostRuntime) -> Result<(), Fail> {
    let edges = sample(rt.alloc())?;
    let none = reached(rt.alloc(), &edges, &[])?;
    assert!(rt; none.as_slice() == [false, false, false, false, false, false, false].as_slice());
    let cycle = reached(rt.alloc(), &edges, &[1])?;
    assert!(rt; cycle.as_slice() == [true, true, true, false, false, false, false].as_slice());
    let chain = reached(rt.alloc(), &edges, &[3, 7])?;
    assert!(rt; chain.as_slice() == [false, false, false, true, true, true, false].as_slice());
    let both = reached(rt.alloc(), &edges, &[5, 6])?;
    assert!(rt; both.as_slice() == [true, true, true, false, false, true, true].as_slice());
    Ok(())
}
