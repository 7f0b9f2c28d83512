// The number of calls before the one that is made to fail.
ghost use Rattle.std.specs.Prelude.{◌≡◌};
ghost use Rattle.xh_outside.specs.Reading.{is_due, next_left};

/// Whether the next call is the one that is made to fail.
pub fn is_due(left: Option<u64>) -> bool
    ensures { result ≡ is_due left }
{
    match left {
        None => false,
        Some(n) => n == 0,
    }
}

/// The number after one more call. The call that fails is the only one to do so.
pub fn next_left(left: Option<u64>) -> Option<u64>
    ensures { result ≡ next_left left }
{
    match left {
        None => None,
        Some(n) => n.checked_sub(1),
    }
}
