ghost use Rattle.std.specs.Prelude.{◌≡◌, drop};
ghost use Rattle.spec_grammar.specs.Marks.{code_of, sign_at, level_of, operator_of, operator_at, prefix_level, prefix_of, prefix_at, augmented_of, augmented_at};
ghost use Rattle.py_words.specs.Found.{Finds, FindsWith, first_sign};

use crate::words::{LineWords, Word};
use spec_grammar::Mark;
use spec_trees::{Operator, Prefix};

// The number of a mark, by which marks are told apart.
fn code(mark: Mark) -> u8
    ensures { result ≡ code_of mark }
{
    match mark {
        Mark::Plus => 0,
        Mark::Minus => 1,
        Mark::Star => 2,
        Mark::DoubleSlash => 3,
        Mark::Percent => 4,
        Mark::Ampersand => 5,
        Mark::Bar => 6,
        Mark::Caret => 7,
        Mark::Tilde => 8,
        Mark::ShiftLeft => 9,
        Mark::ShiftRight => 10,
        Mark::Less => 11,
        Mark::Greater => 12,
        Mark::LessEqual => 13,
        Mark::GreaterEqual => 14,
        Mark::Equal => 15,
        Mark::NotEqual => 16,
        Mark::OpenParen => 17,
        Mark::CloseParen => 18,
        Mark::OpenBracket => 19,
        Mark::CloseBracket => 20,
        Mark::OpenBrace => 21,
        Mark::CloseBrace => 22,
        Mark::Comma => 23,
        Mark::Colon => 24,
        Mark::Dot => 25,
        Mark::Assign => 26,
        Mark::Arrow => 27,
        Mark::PlusAssign => 28,
        Mark::MinusAssign => 29,
        Mark::StarAssign => 30,
        Mark::DoubleSlashAssign => 31,
        Mark::PercentAssign => 32,
        Mark::AmpersandAssign => 33,
        Mark::BarAssign => 34,
        Mark::CaretAssign => 35,
        Mark::ShiftLeftAssign => 36,
        Mark::ShiftRightAssign => 37,
        Mark::True => 38,
        Mark::False => 39,
        Mark::None => 40,
        Mark::And => 41,
        Mark::Assert => 42,
        Mark::Break => 43,
        Mark::Class => 44,
        Mark::Continue => 45,
        Mark::Def => 46,
        Mark::Del => 47,
        Mark::Elif => 48,
        Mark::Else => 49,
        Mark::Except => 50,
        Mark::For => 51,
        Mark::From => 52,
        Mark::If => 53,
        Mark::Import => 54,
        Mark::In => 55,
        Mark::Is => 56,
        Mark::Not => 57,
        Mark::Or => 58,
        Mark::Pass => 59,
        Mark::Raise => 60,
        Mark::Return => 61,
        Mark::Try => 62,
        Mark::While => 63,
        Mark::Reserved => 64,
    }
}

// The level of an operator: 0 binds tightest.
fn level_of(operator: Operator) -> usize
    ensures { result ≡ level_of operator }
{
    match operator {
        Operator::Multiply | Operator::FloorDivide | Operator::Modulo => 0,
        Operator::Add | Operator::Subtract => 1,
        Operator::ShiftLeft | Operator::ShiftRight => 2,
        Operator::BitAnd => 3,
        Operator::BitXor => 4,
        Operator::BitOr => 5,
        Operator::Equal
        | Operator::NotEqual
        | Operator::Less
        | Operator::LessEqual
        | Operator::Greater
        | Operator::GreaterEqual
        | Operator::In
        | Operator::NotIn
        | Operator::Is
        | Operator::IsNot => 6,
        Operator::And => 8,
        Operator::Or => 9,
    }
}

// The operator that a mark begins, and the place behind it, where the place follows the mark.
fn operator_of(words: &LineWords, mark: Mark, pos: usize) -> Option<(Operator, usize)>
    ensures { FindsWith words.now result (operator_of mark (drop pos words.now)) }
{
    let operator = match mark {
        Mark::Star => Operator::Multiply,
        Mark::DoubleSlash => Operator::FloorDivide,
        Mark::Percent => Operator::Modulo,
        Mark::Plus => Operator::Add,
        Mark::Minus => Operator::Subtract,
        Mark::ShiftLeft => Operator::ShiftLeft,
        Mark::ShiftRight => Operator::ShiftRight,
        Mark::Ampersand => Operator::BitAnd,
        Mark::Caret => Operator::BitXor,
        Mark::Bar => Operator::BitOr,
        Mark::Equal => Operator::Equal,
        Mark::NotEqual => Operator::NotEqual,
        Mark::Less => Operator::Less,
        Mark::LessEqual => Operator::LessEqual,
        Mark::Greater => Operator::Greater,
        Mark::GreaterEqual => Operator::GreaterEqual,
        Mark::In => Operator::In,
        Mark::Not => {
            let after = words.sign(pos, Mark::In)?;
            return Some((Operator::NotIn, after));
        }
        Mark::Is => {
            if let Some(after) = words.sign(pos, Mark::Not) {
                return Some((Operator::IsNot, after));
            }
            Operator::Is
        }
        Mark::And => Operator::And,
        Mark::Or => Operator::Or,
        _ => return None,
    };
    Some((operator, pos))
}

// The level of a prefix.
fn prefix_level(prefix: Prefix) -> usize
    ensures { result ≡ prefix_level prefix }
{
    match prefix {
        Prefix::Plus | Prefix::Minus | Prefix::Invert => 0,
        Prefix::Not => 8,
    }
}

// The prefix that a mark is.
fn prefix_of(mark: Mark) -> Option<Prefix>
    ensures { result ≡ prefix_of mark }
{
    match mark {
        Mark::Plus => Some(Prefix::Plus),
        Mark::Minus => Some(Prefix::Minus),
        Mark::Tilde => Some(Prefix::Invert),
        Mark::Not => Some(Prefix::Not),
        _ => None,
    }
}

// The operator of the augmented assignment that a mark is.
fn augmented_of(mark: Mark) -> Option<Operator>
    ensures { result ≡ augmented_of mark }
{
    match mark {
        Mark::PlusAssign => Some(Operator::Add),
        Mark::MinusAssign => Some(Operator::Subtract),
        Mark::StarAssign => Some(Operator::Multiply),
        Mark::DoubleSlashAssign => Some(Operator::FloorDivide),
        Mark::PercentAssign => Some(Operator::Modulo),
        Mark::AmpersandAssign => Some(Operator::BitAnd),
        Mark::BarAssign => Some(Operator::BitOr),
        Mark::CaretAssign => Some(Operator::BitXor),
        Mark::ShiftLeftAssign => Some(Operator::ShiftLeft),
        Mark::ShiftRightAssign => Some(Operator::ShiftRight),
        _ => None,
    }
}

impl LineWords {
    /// The sign at a place, and the place behind it.
    pub fn any_sign(&self, pos: usize) -> Option<(Mark, usize)>
        ensures { FindsWith self.now result (first_sign (drop pos self.now)) }
    {
        match self.first(pos)? {
            Word::Sign { mark, .. } => Some((*mark, pos + 1)),
            _ => None,
        }
    }

    /// The place behind the mark, where it stands at the place.
    pub fn sign(&self, pos: usize, mark: Mark) -> Option<usize>
        ensures { Finds self.now result (sign_at mark (drop pos self.now)) }
    {
        let (found, after) = self.any_sign(pos)?;
        if code(mark) == code(found) {
            return Some(after);
        }
        None
    }

    /// The operator of the level that stands at a place, and the place behind it. Levels are counted from the tightest:
    /// 0 is `*` and its kin, 1 sums, 2 shifts, 3 `&`, 4 `^`, 5 `|`, 6 comparisons, 8 `and`, 9 `or`.
    pub fn operator(&self, pos: usize, level: usize) -> Option<(Operator, usize)>
        ensures { FindsWith self.now result (operator_at level (drop pos self.now)) }
    {
        let (mark, start) = self.any_sign(pos)?;
        let (operator, after) = operator_of(self, mark, start)?;
        if level_of(operator) == level {
            return Some((operator, after));
        }
        None
    }

    /// The prefix of the level that stands at a place, and the place behind it: at level 0 `+`, `-` and `~`, at level 8
    /// `not`.
    pub fn prefix(&self, pos: usize, level: usize) -> Option<(Prefix, usize)>
        ensures { FindsWith self.now result (prefix_at level (drop pos self.now)) }
    {
        let (mark, after) = self.any_sign(pos)?;
        let prefix = prefix_of(mark)?;
        if prefix_level(prefix) == level {
            return Some((prefix, after));
        }
        None
    }

    /// The operator of the augmented assignment whose sign stands at a place, as `+` of `+=`, and the place behind it.
    pub fn augmented(&self, pos: usize) -> Option<(Operator, usize)>
        ensures { FindsWith self.now result (augmented_at (drop pos self.now)) }
    {
        let (mark, after) = self.any_sign(pos)?;
        let operator = augmented_of(mark)?;
        Some((operator, after))
    }
}
