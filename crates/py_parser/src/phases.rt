ghost use Rattle.std.specs.Prelude.{◌≡◌, List, map, IfOk};
ghost use Rattle.spec_grammar.specs.Blocks as spelled;
ghost use Rattle.spec_syntax.specs.Phases.{first_deep};
ghost use Rattle.py_outline.specs.Outlines.{outline_of};
ghost use Rattle.py_placed.specs.Placed.{ArePlaced};
ghost use Rattle.py_blocks.specs.Given.{AreThere};

use py_forms::form_of;
use py_nesting::is_deep;
use py_outline::Outline;
use py_placed::PlacedLine;
use py_tree::Module;
use std::alloc::Global;
use xh_outside::NoMemory;

/// The line, from 1, of the first logical line with an expression that is too high, or in too many blocks.
pub(crate) fn first_deep(module: &Module, lines: &[PlacedLine]) -> Option<u32>
    requires { AreThere «module».now lines.now }
    ensures { (ps : List spelled.PlacedLine) → ArePlaced «module».now lines.now ps → result ≡ first_deep ps }
{
    for line in lines {
        if is_deep(module, line.depth, &line.node) {
            return Some(line.first);
        }
    }
    None
}

/// What the rules on places ask of lines.
pub(crate) fn outlines(
    alloc: Global,
    module: &Module,
    lines: &[PlacedLine],
) -> Result<Vec<Outline>, NoMemory>
    requires { AreThere «module».now lines.now }
    ensures { IfOk result (λ os. (ps : List spelled.PlacedLine) → ArePlaced «module».now lines.now ps → map outline_of ps ≡ os.items) }
{
    let mut outlines = Vec::new(alloc);
    for line in lines {
        outlines.push(Outline {
            depth: line.depth,
            line: line.first,
            form: form_of(module, &line.node),
        })?;
    }
    Ok(outlines)
}
