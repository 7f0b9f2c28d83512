ghost use Rattle.std.specs.Prelude.{◌≡◌, ◌≤◌, ℕ, List, nat_lt, OnOk, OnErr, IfOk};
ghost use Rattle.spec_grammar.specs.Words.{Word, Sign};
ghost use Rattle.spec_grammar.specs.Load.{closes_operand, behind_sign, load_of, load, MAX_LOAD};
ghost use Rattle.py_outline.specs.Reach.{line_start, reach_behind, reach_of, is_over, IsOperand};

use crate::levels::Levels;
use spec_grammar::Mark;
use std::alloc::Global;
use std::marker::Model;
use xh_outside::NoMemory;

/// The greatest load that is admitted at a word of a line.
const GREATEST_LOAD: usize = 100;

/// How deep a reader goes into the words of a line, which are pushed one after the other.
#[derive(Drop)]
pub struct Load {
    levels: Levels,
    ends_operand: bool,
    /// Whether some load was above what is admitted. Nothing is counted from there on.
    is_over: bool,
}

impl Model for Load {
    ghost use Rattle.std.specs.Prelude.{◌≡◌, ◌≤◌, false, if◌then◌else◌};
    ghost use Rattle.spec_grammar.specs.Load.{load_of, MAX_LOAD};
    ghost use Rattle.py_outline.specs.Reach.{Reach, within, over};

    ghost Value = { Reach };

    ghost view = { λ s. if s.is_over then over else within s.ends_operand s.levels };

    ghost invariant = { λ s. s.is_over ≡ false → load_of s.levels ≤ MAX_LOAD };
}

/// Whether a `+` or `-` behind this sign stands between operands.
fn closes_operand(mark: Mark) -> bool
    ensures { result ≡ closes_operand mark }
{
    matches!(
        mark,
        Mark::CloseParen
            | Mark::CloseBracket
            | Mark::CloseBrace
            | Mark::True
            | Mark::False
            | Mark::None
    )
}

/// The levels behind a sign, where the flag says that an operand ends before it. Where there is no memory for a bracket,
/// they stay as they were.
fn pass(levels: &mut Levels, ends_operand: bool, mark: Mark) -> Result<(), NoMemory>
    requires { load_of levels.old ≤ MAX_LOAD }
    ensures ok { OnOk result (levels.new ≡ behind_sign ends_operand mark levels.old) }
    ensures err { OnErr result (levels.new ≡ levels.old) }
{
    match mark {
        Mark::OpenParen | Mark::OpenBracket | Mark::OpenBrace => levels.open()?,
        Mark::CloseParen | Mark::CloseBracket | Mark::CloseBrace => levels.close(),
        Mark::Comma => levels.begin_anew(),
        Mark::Not | Mark::Else | Mark::Tilde => levels.add(),
        Mark::Plus | Mark::Minus if !ends_operand => levels.add(),
        _ => {}
    }
    Ok(())
}

impl Load {
    /// The load before the first word of a line.
    pub fn new(alloc: Global) -> Result<Self, NoMemory>
        ensures { IfOk result (λ s. s ≡ line_start) }
    {
        let mut levels = Levels::new(alloc);
        levels.open()?;
        Ok(Load {
            levels,
            ends_operand: false,
            is_over: false,
        })
    }

    /// The next word is a name, an integer or a string.
    pub fn push_operand(&mut self)
        ensures { (w : Word) → IsOperand w → self.new ≡ reach_behind w self.old }
    {
        self.ends_operand = true;
    }

    /// The next word is a sign. Where there is no memory for a bracket, the load stays as it was.
    pub fn push_sign(&mut self, mark: Mark) -> Result<(), NoMemory>
        ensures ok { OnOk result ((n : ℕ) → self.new ≡ reach_behind (Sign n mark) self.old) }
        ensures err { OnErr result (self.new ≡ self.old) }
    {
        if self.is_over {
            return Ok(());
        }
        pass(&mut self.levels, self.ends_operand, mark)?;
        self.ends_operand = closes_operand(mark);
        self.is_over = self.levels.load() > GREATEST_LOAD;
        Ok(())
    }

    /// Whether the load at some word was above what is admitted.
    pub fn is_over(&self) -> bool
        ensures reach { result ≡ is_over self.now }
        ensures load { (s : List Word) → self.now ≡ reach_of line_start s → result ≡ nat_lt MAX_LOAD (load s) }
    {
        self.is_over
    }
}
