ghost use Rattle.std.specs.Prelude.{◌≡◌, List, map, IfOk};
ghost use Rattle.spec_grammar.specs.Blocks.{PlacedLine};
ghost use Rattle.spec_syntax.specs.Placement.{smallest};
ghost use Rattle.spec_syntax.specs.Phases.{first_misplaced};
ghost use Rattle.py_outline.specs.Outlines.{outline_of};
ghost use Rattle.py_outline.specs.Told.{first_faults};

use crate::Outline;
use crate::headers::goes_on;
use crate::orders::order_fault;
use crate::surroundings::place_fault;
use crate::told::{least, with_fault};
use std::alloc::Global;
use xh_outside::NoMemory;

/// The line of a fault of the first line, which stands in no block and goes on with nothing.
fn first_fault(outlines: &[Outline]) -> Option<u32>
    ensures { result ≡ smallest (first_faults outlines.now) }
{
    let outline = outlines.first()?;
    let is_fault = outline.depth > 0 || goes_on(outline.form.header());
    with_fault(None, is_fault, outline.line)
}

/// The smallest line, from 1, that stands where it may not, or that lacks what must follow it. The time and the memory
/// that this takes grow linearly with the number of lines.
pub fn first_misplaced(alloc: Global, outlines: &[Outline]) -> Result<Option<u32>, NoMemory>
    ensures { IfOk result (λ line. (ps : List PlacedLine) → map outline_of ps ≡ outlines.now → line ≡ first_misplaced ps) }
{
    let placed = place_fault(alloc, outlines)?;
    let ordered = order_fault(alloc, outlines)?;
    Ok(least(first_fault(outlines), least(placed, ordered)))
}
