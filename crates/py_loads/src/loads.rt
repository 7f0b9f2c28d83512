ghost use Rattle.std.specs.Prelude.{◌≡◌, map, IfOk, OnOk};
ghost use Rattle.spec_syntax.specs.Phases.{first_overloaded, is_overloaded};
ghost use Rattle.py_outline.specs.Reach.{reach_behind};
ghost use Rattle.py_words.specs.Seen.{seen};
ghost use Rattle.py_words.specs.Lines.{line_seen};

use py_outline::Load;
use py_words::{Word, WordLine};
use std::alloc::Global;
use xh_outside::NoMemory;

/// The next word of a line.
fn push_word(load: &mut Load, word: &Word) -> Result<(), NoMemory>
    ensures { OnOk result (load.new ≡ reach_behind (seen word.now) load.old) }
{
    match word {
        Word::Name { .. } | Word::Integer { .. } | Word::Text(_) => load.push_operand(),
        Word::Sign { mark, .. } => load.push_sign(*mark)?,
    }
    Ok(())
}

/// Whether the load of a line is above what is admitted.
fn is_overloaded(alloc: Global, line: &WordLine) -> Result<bool, NoMemory>
    ensures { IfOk result (λ is_over. is_over ≡ is_overloaded (line_seen line.now)) }
{
    let mut load = Load::new(alloc)?;
    for pos in 0..line.words.len() {
        let Some(word) = line.words.first(pos) else {
            break;
        };
        push_word(&mut load, word)?;
    }
    Ok(load.is_over())
}

/// The line, from 1, of the first logical line whose load is above what is admitted. The time that this takes grows
/// linearly with the number of words. The only error is that there is no memory for the open brackets of a line.
pub fn first_overloaded(alloc: Global, lines: &[WordLine]) -> Result<Option<u32>, NoMemory>
    ensures { IfOk result (λ line. line ≡ first_overloaded (map line_seen lines.now)) }
{
    for line in lines {
        if is_overloaded(alloc, line)? {
            return Ok(Some(line.words.line(0)));
        }
    }
    Ok(None)
}
