ghost use Rattle.std.specs.Prelude.{◌≡◌, drop};
ghost use Rattle.py_statements.specs.Given.{ends};

use py_words::LineWords;

/// Whether no words are left from a place on.
pub(crate) fn at_end(words: &LineWords, pos: usize) -> bool
    ensures { result ≡ ends (drop pos words.now) }
{
    words.len() <= pos
}
