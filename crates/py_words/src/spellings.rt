ghost use Rattle.std.specs.Prelude.{◌≡◌, map};
ghost use Rattle.spec_syntax.specs.TokenWords.{mark_in, mark_of};

use py_tokens::spell;
use spec_grammar::Mark;

// How each operator, delimiter and keyword is spelled that the grammar uses.
const SPELLINGS: [(&str, Mark); 64] = [
    ("+", Mark::Plus),
    ("-", Mark::Minus),
    ("*", Mark::Star),
    ("//", Mark::DoubleSlash),
    ("%", Mark::Percent),
    ("&", Mark::Ampersand),
    ("|", Mark::Bar),
    ("^", Mark::Caret),
    ("~", Mark::Tilde),
    ("<<", Mark::ShiftLeft),
    (">>", Mark::ShiftRight),
    ("<", Mark::Less),
    (">", Mark::Greater),
    ("<=", Mark::LessEqual),
    (">=", Mark::GreaterEqual),
    ("==", Mark::Equal),
    ("!=", Mark::NotEqual),
    ("(", Mark::OpenParen),
    (")", Mark::CloseParen),
    ("[", Mark::OpenBracket),
    ("]", Mark::CloseBracket),
    ("{", Mark::OpenBrace),
    ("}", Mark::CloseBrace),
    (",", Mark::Comma),
    (":", Mark::Colon),
    (".", Mark::Dot),
    ("=", Mark::Assign),
    ("->", Mark::Arrow),
    ("+=", Mark::PlusAssign),
    ("-=", Mark::MinusAssign),
    ("*=", Mark::StarAssign),
    ("//=", Mark::DoubleSlashAssign),
    ("%=", Mark::PercentAssign),
    ("&=", Mark::AmpersandAssign),
    ("|=", Mark::BarAssign),
    ("^=", Mark::CaretAssign),
    ("<<=", Mark::ShiftLeftAssign),
    (">>=", Mark::ShiftRightAssign),
    ("True", Mark::True),
    ("False", Mark::False),
    ("None", Mark::None),
    ("and", Mark::And),
    ("assert", Mark::Assert),
    ("break", Mark::Break),
    ("class", Mark::Class),
    ("continue", Mark::Continue),
    ("def", Mark::Def),
    ("del", Mark::Del),
    ("elif", Mark::Elif),
    ("else", Mark::Else),
    ("except", Mark::Except),
    ("for", Mark::For),
    ("from", Mark::From),
    ("if", Mark::If),
    ("import", Mark::Import),
    ("in", Mark::In),
    ("is", Mark::Is),
    ("not", Mark::Not),
    ("or", Mark::Or),
    ("pass", Mark::Pass),
    ("raise", Mark::Raise),
    ("return", Mark::Return),
    ("try", Mark::Try),
    ("while", Mark::While),
];

// The mark that letters spell in a table; what is not there is reserved.
fn mark_in(table: &[(&str, Mark)], letters: &[char]) -> Mark
    ensures { result ≡ mark_in (map (λ x. (x.0.now, x.1)) table.now) letters.now }
{
    for (spelling, mark) in table {
        if spell(letters, spelling) {
            return *mark;
        }
    }
    Mark::Reserved
}

/// The mark that letters spell; what the grammar does not use is reserved.
#[tactic(auto, unfolding(spec_syntax::specs::TokenWords::mark_of))]
pub(crate) fn mark_of(letters: &[char]) -> Mark
    ensures { result ≡ mark_of letters.now }
{
    mark_in(&SPELLINGS, letters)
}
