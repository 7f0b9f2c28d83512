ghost use Rattle.std.specs.Prelude.{◌≡◌, ◌≤◌, ◌<◌, ◌+◌, ◌^◌, length, map, chars, is_some, IfOk, Err};
ghost use Rattle.std.specs.Option.{option_map};
ghost use Rattle.spec_tokens.specs.Letters.{letters_of};
ghost use Rattle.spec_tokens.specs.Cutting.{pieces_of};
ghost use Rattle.spec_tokens.specs.Tokens.{tokens_of};
ghost use Rattle.spec_grammar.specs.Height.{height};
ghost use Rattle.spec_grammar.specs.Reading.{given, expr_of};
ghost use Rattle.spec_grammar.specs.TypeReading.{type_of};
ghost use Rattle.spec_syntax.specs.Phases.{no_line};
ghost use Rattle.spec_syntax.specs.Texts.{unindented, one_line, text_words, not_too_high, flat, parsed_expression, parsed_type};
ghost use Rattle.py_tokens.specs.Scanned.{refusal_of};
ghost use Rattle.py_words.specs.Lines.{line_seen};
ghost use Rattle.py_expressions.specs.Given as expressions;
ghost use Rattle.py_types.specs.Given as types;
ghost use Rattle.py_parser.specs.Given.{scan_of, admitted, GivesWords, GivesExpression, GivesType, IsErrorOf};

use crate::SyntaxError;
use py_expressions::{Unread, read_expression};
use py_heights::is_high;
use py_loads::first_overloaded;
use py_tokens::{TokenError, Tokens, scan};
use py_tree::{ExprId, Module, TypeId};
use py_types::read_type;
use py_words::{LineWords, WordLine, word_lines};
use std::alloc::Global;
use std::slice;
use xh_outside::NoMemory;

// The text without the spaces and tabs at its front.
fn unindented(text: &str) -> &str
    ensures letters { chars result.now ≡ unindented (chars text.now) }
    ensures short { length result.now ≤ length text.now }
{
    text.trim_start_matches([' ', '\t'])
}

// Whether an error tells that a text has no tokens.
fn is_refusal(error: TokenError) -> bool
    ensures { result ≡ is_some (refusal_of error) }
{
    match error {
        TokenError::NoMemory => false,
        _ => true,
    }
}

// The tokens of a text, where it has any.
fn tokens_of(alloc: Global, text: &str) -> Result<Option<Tokens>, NoMemory>
    requires { length text.now < 2 ^ 31 }
    ensures { IfOk result (λ o. option_map (λ t. t.scan) o ≡ scan_of (tokens_of (chars text.now) (pieces_of (letters_of (chars text.now))))) }
{
    match scan(alloc, text) {
        Ok(tokens) => Ok(Some(tokens)),
        Err(error) => {
            if is_refusal(error) {
                Ok(None)
            } else {
                Err(NoMemory)
            }
        }
    }
}

// The words of lines that are one line, which is not indented. They are put on the line that is given.
fn one_line(lines: Vec<WordLine>, line: u32) -> Option<LineWords>
    ensures { result ≡ one_line line (map line_seen lines.items) }
{
    let mut lines = lines;
    if lines.len() != 1 {
        return None;
    }
    let only = lines.pop()?;
    if only.depth != 0 {
        return None;
    }
    let mut words = only.words;
    words.move_to(line);
    Some(words)
}

// The words of a line, where their load is admitted.
fn admitted(alloc: Global, words: LineWords, line: u32) -> Result<LineWords, SyntaxError>
    ensures { GivesWords result (admitted line words) }
{
    let line_words = WordLine { depth: 0, words };
    if let Some(_) = first_overloaded(alloc, slice::from_ref(&line_words))? {
        return Err(SyntaxError::TooDeep(line));
    }
    Ok(line_words.words)
}

// The words of a text that is one line, whose load is admitted.
fn words_of(alloc: Global, text: &str, line: u32) -> Result<LineWords, SyntaxError>
    requires { length text.now < 2 ^ 31 }
    ensures { GivesWords result (given (text_words line (chars text.now)) (admitted line) (Err (no_line line))) }
{
    let Some(tokens) = tokens_of(alloc, unindented(text))? else {
        return Err(SyntaxError::Line(line));
    };
    let lines = word_lines(alloc, &tokens)?;
    let Some(words) = one_line(lines, line) else {
        return Err(SyntaxError::Line(line));
    };
    admitted(alloc, words, line)
}

// The error where a line does not begin with what is read.
fn error_of(unread: Unread, line: u32) -> SyntaxError
    ensures { IsErrorOf unread line result }
{
    match unread {
        Unread::NoForm => SyntaxError::Line(line),
        Unread::NoMemory => SyntaxError::NoMemory,
    }
}

// The expression that all words are.
fn whole_expression(
    alloc: Global,
    words: &LineWords,
    line: u32,
    into: &mut Module,
) -> Result<ExprId, SyntaxError>
    ensures grown { expressions.Grows into.old into.new }
    ensures parsed { GivesExpression into.new result (given (expr_of words.now) (not_too_high height line) (Err (no_line line))) }
{
    let (whole, next) = match read_expression(alloc, words, into, 0) {
        Ok(read) => read,
        Err(unread) => return Err(error_of(unread, line)),
    };
    if let Some(_) = words.first(next) {
        return Err(SyntaxError::Line(line));
    }
    if is_high(into, whole) {
        return Err(SyntaxError::TooDeep(line));
    }
    Ok(whole)
}

// The type that all words are.
fn whole_type(
    alloc: Global,
    words: &LineWords,
    line: u32,
    into: &mut Module,
) -> Result<TypeId, SyntaxError>
    ensures grown { types.Grows into.old into.new }
    ensures parsed { GivesType into.new result (given (type_of words.now) (not_too_high flat line) (Err (no_line line))) }
{
    let (whole, next) = match read_type(alloc, words, into, 0) {
        Ok(read) => read,
        Err(unread) => return Err(error_of(unread, line)),
    };
    if let Some(_) = words.first(next) {
        return Err(SyntaxError::Line(line));
    }
    Ok(whole)
}

/// The expression that a text of fewer than 2^31 bytes is, behind spaces and tabs at its front. Its nodes stand on the
/// line that is given, from 1. The module keeps what was there, and may have more names and expressions after an error
/// too.
///
/// # Errors
///
/// Each has the line that is given. `Line` comes where the text is not one line of tokens that are one expression,
/// and `TooDeep` where its load is greater or the expression higher than 100. `NoMemory` comes where there is no memory
/// for it, and `Block` never.
pub fn expression(
    alloc: Global,
    text: &str,
    line: u32,
    into: &mut Module,
) -> Result<ExprId, SyntaxError>
    requires small { length text.now < 2 ^ 31 }
    requires lines { line + length text.now < 2 ^ 32 }
    ensures grown { expressions.Grows into.old into.new }
    ensures parsed { GivesExpression into.new result (parsed_expression line (chars text.now)) }
{
    // its contract tells that the parts of each node are there
    let _ = into.exprs_count();
    let words = words_of(alloc, text, line)?;
    whole_expression(alloc, &words, line, into)
}

/// The type that a text of fewer than 2^31 bytes is, behind spaces and tabs at its front. Its nodes stand on the line
/// that is given, from 1. The module keeps what was there, and may have more names and types after an error too.
///
/// # Errors
///
/// Each has the line that is given. `Line` comes where the text is not one line of tokens that are one type, and
/// `TooDeep` where its load is greater than 100. `NoMemory` comes where there is no memory for it, and `Block` never.
pub fn type_text(
    alloc: Global,
    text: &str,
    line: u32,
    into: &mut Module,
) -> Result<TypeId, SyntaxError>
    requires small { length text.now < 2 ^ 31 }
    requires lines { line + length text.now < 2 ^ 32 }
    ensures grown { types.Grows into.old into.new }
    ensures parsed { GivesType into.new result (parsed_type line (chars text.now)) }
{
    // its contract tells that the parts of each node are there
    let _ = into.types_count();
    let words = words_of(alloc, text, line)?;
    whole_type(alloc, &words, line, into)
}
