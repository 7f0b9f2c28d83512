ghost use Rattle.std.specs.Prelude.{◌≡◌, ◌+◌, ◌^◌, ◌<◌, List, Some, Contains, drop, map, slice_get, IfSome};
ghost use Rattle.std.specs.Option.{option_copied, option_map};
ghost use Rattle.spec_grammar.specs.Blocks as spelled;
ghost use Rattle.spec_grammar.specs.BlockReading.{admitted_at, elif_of, else_of, except_of};
ghost use Rattle.py_tree.specs.Arena.{State};
ghost use Rattle.py_placed.specs.declared.placed.PlacedLine as placed;
ghost use Rattle.py_placed.specs.Extents.{last_of, span_of};
ghost use Rattle.py_placed.specs.Placed.{ArePlaced};
ghost use Rattle.py_blocks.specs.Growth.{line_extents};
ghost use Rattle.py_blocks.specs.Heads.{in_depth, head_at, FindsBranch, FindsElse, FindsHandler};

use py_lines::{HeaderNode, LineNode};
use py_placed::PlacedLine;
use py_tree::{ExprId, NamesId, StmtId};

/// The line at a place, where it stands in so many blocks.
pub(crate) fn line_at(lines: &[PlacedLine], depth: usize, pos: usize) -> Option<&PlacedLine>
    ensures line { option_copied result ≡ in_depth depth (slice_get lines.now pos) }
    ensures within { IfSome result (λ _. pos + 1 < 2 ^ 64) }
{
    let line = lines.get(pos)?;
    if line.depth == depth {
        Some(line)
    } else {
        None
    }
}

/// The header at a place, where its line stands in so many blocks, and the statement that stands on the line with it.
fn head_at(lines: &[PlacedLine], depth: usize, pos: usize) -> Option<(&HeaderNode, Option<StmtId>)>
    ensures head { option_map (λ x. (x.0.now, x.1)) result ≡ head_at lines.now depth pos }
    ensures within { IfSome result (λ _. pos + 1 < 2 ^ 64) }
{
    match &line_at(lines, depth, pos)?.node {
        LineNode::Simple(_) => None,
        LineNode::Header(header) => Some((header, None)),
        LineNode::HeaderSimple(header, own) => Some((header, Some(*own))),
    }
}

/// The line and the condition of the `elif` at a place, and the statement that stands on the line with it.
pub(crate) fn elif_at(
    lines: &[PlacedLine],
    depth: usize,
    pos: usize,
) -> Option<(u32, ExprId, Option<StmtId>)>
    ensures found { (m : State) (ps : List spelled.PlacedLine) → ArePlaced m lines.now ps → FindsBranch m ps pos result (admitted_at elif_of depth (drop pos ps)) }
    ensures within { IfSome result (λ _. pos + 1 < 2 ^ 64) }
{
    let (header, own) = head_at(lines, depth, pos)?;
    match header {
        HeaderNode::Elif { line, condition } => Some((*line, *condition, own)),
        _ => None,
    }
}

/// The line and the classes of the `except` at a place, and the statement that stands on the line with it.
pub(crate) fn except_at(
    lines: &[PlacedLine],
    depth: usize,
    pos: usize,
) -> Option<(u32, NamesId, Option<StmtId>)>
    ensures found { (m : State) (ps : List spelled.PlacedLine) → ArePlaced m lines.now ps → FindsHandler m ps pos result (admitted_at except_of depth (drop pos ps)) }
    ensures within { IfSome result (λ _. pos + 1 < 2 ^ 64) }
{
    let (header, own) = head_at(lines, depth, pos)?;
    match header {
        HeaderNode::Except { line, classes } => Some((*line, *classes, own)),
        _ => None,
    }
}

/// The line of the `else` at a place, and the statement that stands on the line with it.
pub(crate) fn else_at(
    lines: &[PlacedLine],
    depth: usize,
    pos: usize,
) -> Option<(u32, Option<StmtId>)>
    ensures found { (m : State) (ps : List spelled.PlacedLine) → ArePlaced m lines.now ps → FindsElse m ps pos result (admitted_at else_of depth (drop pos ps)) }
    ensures within { IfSome result (λ _. pos + 1 < 2 ^ 64) }
{
    let (header, own) = head_at(lines, depth, pos)?;
    match header {
        HeaderNode::Else { line } => Some((*line, own)),
        _ => None,
    }
}

/// The line on which the lines from a place on end that stand in more blocks, where what is before them ends on `end`.
fn last_behind(lines: &[PlacedLine], depth: usize, start: usize, end: u32) -> u32
    ensures { result ≡ last_of depth end (map span_of (drop start lines.now)) }
{
    let mut last = end;
    'lines: for pos in start..lines.len() {
        match lines.get(pos) {
            Some(line) if line.depth > depth => last = line.last,
            _ => return last,
        }
    }
    last
}

/// The line, from 1, on which the line at a place ends with what stands deeper behind it. The time that this takes grows
/// with the number of those lines.
pub(crate) fn last_line(lines: &[PlacedLine], pos: usize) -> u32
    ensures { (x : placed.PlacedLine) → slice_get lines.now pos ≡ Some x → Contains (line_extents lines.now) (x.first, result) }
{
    let Some(line) = lines.get(pos) else {
        return 0;
    };
    last_behind(lines, line.depth, pos + 1, line.last)
}
