ghost use Rattle.std.specs.Prelude.{◌≡◌, ◌≤◌, ◌==◌, length};
ghost use Rattle.std.specs.List.{before_first, list_any};
ghost use Rattle.std.specs.Option.{option_map};
ghost use Rattle.spec_tokens.specs.Letters.{is_blank, run};
ghost use Rattle.spec_syntax.specs.Texts.{unindented};
ghost use Rattle.spec_contracts.specs.Heads.{behind, trimmed};
ghost use Rattle.spec_contracts.specs.Entries.{is_comment, is_escaped};
ghost use Rattle.contract_entries.specs.Letters.{behind_first, without_end};

// Whether a letter is a space or a tab.
fn is_blank(letter: char) -> bool
    ensures { result ≡ is_blank letter }
{
    matches!(letter, ' ' | '\t')
}

/// How many spaces and tabs the letters begin with.
pub(crate) fn indent(letters: &[char]) -> usize
    ensures run { result ≡ run is_blank letters.now }
    ensures within { result ≤ length letters.now }
{
    for (i, letter) in letters.iter().enumerate() {
        if !is_blank(*letter) {
            return i;
        }
    }
    letters.len()
}

/// The letters without the spaces and tabs at their front.
pub(crate) fn unindented(letters: &[char]) -> &[char]
    ensures { result.now ≡ unindented letters.now }
{
    &letters[indent(letters)..]
}

/// The letters without the spaces and tabs at their end.
fn without_end(letters: &[char]) -> &[char]
    ensures { result.now ≡ without_end letters.now }
{
    let mut rest = letters;
    while let Some((last, front)) = rest.split_last() {
        if !is_blank(*last) {
            return rest;
        }
        rest = front;
    }
    rest
}

/// The letters without the spaces and tabs on both sides.
pub(crate) fn trimmed(letters: &[char]) -> &[char]
    ensures { result.now ≡ trimmed letters.now }
{
    without_end(unindented(letters))
}

/// The letters before the first one that separates, and those behind it where there is one.
pub(crate) fn cut(letters: &[char], separator: char) -> (&[char], Option<&[char]>)
    ensures before { result.0.now ≡ before_first (λ c. c == separator) letters.now }
    ensures behind { option_map (λ s. s.now) result.1 ≡ behind_first (λ c. c == separator) letters.now }
{
    for (i, letter) in letters.iter().enumerate() {
        if *letter == separator {
            return (&letters[..i], Some(&letters[i + 1..]));
        }
    }
    (letters, None)
}

/// What stands behind a word with which the letters begin.
pub(crate) fn behind<'a>(word: &[char], letters: &'a [char]) -> Option<&'a [char]>
    ensures { option_map (λ s. s.now) result ≡ behind word.now letters.now }
{
    if letters.starts_with(word) {
        Some(&letters[word.len()..])
    } else {
        None
    }
}

/// Whether a line is a comment.
pub(crate) fn is_comment(letters: &[char]) -> bool
    ensures { result ≡ is_comment letters.now }
{
    matches!(letters, ['#', ..])
}

/// Whether letters of a literal hold a backslash that is not read as it stands.
pub(crate) fn is_escaped(raw: bool, letters: &[char]) -> bool
    ensures { result ≡ is_escaped raw letters.now }
{
    !raw && letters.contains(&'\\')
}
