ghost use Rattle.std.specs.Prelude.{◌≡◌};
ghost use Rattle.spec_syntax.specs.Placement.{fault_if, smallest};
ghost use Rattle.py_outline.specs.Told.{least};

/// Of the line that is told so far and that of a fault, the smaller one.
pub(crate) fn with_fault(told: Option<u32>, is_fault: bool, line: u32) -> Option<u32>
    ensures { result ≡ least told (smallest (fault_if is_fault line)) }
{
    if !is_fault {
        return told;
    }
    match told {
        Some(smallest) => Some(smallest.min(line)),
        None => Some(line),
    }
}

/// Of two lines, the smaller one.
pub(crate) fn least(one: Option<u32>, other: Option<u32>) -> Option<u32>
    ensures { result ≡ least one other }
{
    match other {
        Some(line) => with_fault(one, true, line),
        None => one,
    }
}
