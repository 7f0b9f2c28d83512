use crate::told_if;
use spec_names::{ProfileFault, Refusal};
use std::test::Fail;

fn form_on(line: u32) -> Refusal {
    Refusal {
        line,
        fault: ProfileFault::Form,
    }
}

#[test]
fn the_smallest_line_is_told_and_then_the_first_fault(rt: HostRuntime) -> Result<(), Fail> {
    let told = told_if(None, true, 3, ProfileFault::Form);
    assert!(rt; told == Some(form_on(3)));
    let told = told_if(told, false, 1, ProfileFault::Form);
    assert!(rt; told == Some(form_on(3)));
    let told = told_if(told, true, 2, ProfileFault::Form);
    assert!(rt; told == Some(form_on(2)));
    let told = told_if(told, true, 2, ProfileFault::Duplicate);
    let duplicate = Refusal {
        line: 2,
        fault: ProfileFault::Duplicate,
    };
    assert!(rt; told == Some(duplicate));
    let told = told_if(told, true, 2, ProfileFault::Form);
    assert!(rt; told == Some(duplicate));
    Ok(())
}
