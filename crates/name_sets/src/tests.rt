use crate::NameSet;
use py_tree::NameId;
use std::test::Fail;

#[test]
fn a_set_has_the_names_that_were_added_since_it_was_cleared(rt: HostRuntime) -> Result<(), Fail> {
    let mut names = NameSet::new(rt.alloc(), 2)?;
    let first = NameId { index: 0 };
    let second = NameId { index: 1 };
    names.insert(second);
    assert!(rt; !names.contains(first));
    assert!(rt; names.contains(second));
    names.clear()?;
    assert!(rt; !names.contains(second));
    names.insert(first);
    assert!(rt; names.contains(first));
    names.set(first, false);
    assert!(rt; !names.contains(first));
    names.set(second, true);
    assert!(rt; names.contains(second));
    Ok(())
}
