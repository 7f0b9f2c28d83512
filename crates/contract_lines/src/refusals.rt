ghost use Rattle.std.specs.Prelude.{◌≡◌, ◌++◌, ◌∷◌, [], List};
ghost use Rattle.spec_contracts.specs.declared.Refusal.{Refusal};
ghost use Rattle.spec_contracts.specs.ContractLines.{first_refusal, is_sooner, rank, refused_if};
ghost use Rattle.spec_contracts.proofs.Laws.{with_last};

use spec_contracts::{ContractFault, Refusal};

fn rank(fault: ContractFault) -> u8
    ensures { result ≡ rank fault }
{
    match fault {
        ContractFault::BadExpression => 1,
        ContractFault::UnknownName => 2,
        ContractFault::Misplaced => 3,
    }
}

// Whether a refusal comes before another one.
fn is_sooner(one: Refusal, other: Refusal) -> bool
    ensures { result ≡ is_sooner one other }
{
    one.line < other.line || one.line == other.line && rank(one.fault) < rank(other.fault)
}

// What is told where there is one refusal more.
fn sooner(told: Option<Refusal>, refusal: Refusal) -> Option<Refusal>
    ensures { result ≡ with_last told refusal }
{
    match told {
        Some(told) if !is_sooner(refusal, told) => Some(told),
        _ => Some(refusal),
    }
}

/// What is told behind one test more, which may refuse a line.
pub(crate) fn told_if(
    told: Option<Refusal>,
    is_refused: bool,
    line: u32,
    fault: ContractFault,
) -> Option<Refusal>
    ensures { (rs : List Refusal) → told ≡ first_refusal rs → result ≡ first_refusal (rs ++ refused_if is_refused line fault) }
{
    if is_refused {
        sooner(told, Refusal { line, fault })
    } else {
        told
    }
}
