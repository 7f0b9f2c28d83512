ghost use Rattle.std.specs.Prelude.{◌≡◌};
ghost use Rattle.spec_refusals.specs.Soonest as soonest;
ghost use Rattle.spec_names.specs.Refusals.{line_in, number_in, rank, refused_if};
ghost use Rattle.told_refusals.specs.Telling.{Tells};

use spec_names::{ProfileFault, Refusal};

fn rank(fault: ProfileFault) -> u8
    ensures { result ≡ rank fault }
{
    match fault {
        ProfileFault::UnknownName => 1,
        ProfileFault::Duplicate => 2,
        ProfileFault::MissingType => 3,
        ProfileFault::UnknownType => 4,
        ProfileFault::ModuleStatement => 5,
        ProfileFault::TooWide => 6,
        ProfileFault::Form => 7,
    }
}

// Whether a refusal comes before another one.
fn is_sooner(one: Refusal, other: Refusal) -> bool
    ensures { result ≡ soonest.is_sooner line_in number_in one other }
{
    one.line < other.line || one.line == other.line && rank(one.fault) < rank(other.fault)
}

// What is told where there is one refusal more.
fn sooner(told: Option<Refusal>, refusal: Refusal) -> Option<Refusal>
    ensures { result ≡ soonest.with_last line_in number_in told refusal }
{
    match told {
        Some(told) if !is_sooner(refusal, told) => Some(told),
        _ => Some(refusal),
    }
}

/// What is told behind one test more, which may refuse a line.
pub fn told_if(
    told: Option<Refusal>,
    is_refused: bool,
    line: u32,
    fault: ProfileFault,
) -> Option<Refusal>
    ensures { Tells told result (refused_if is_refused line fault) }
{
    if is_refused {
        sooner(told, Refusal { line, fault })
    } else {
        told
    }
}
