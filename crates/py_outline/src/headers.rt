ghost use Rattle.std.specs.Prelude.{◌≡◌};
ghost use Rattle.py_outline.specs.Orders.{goes_on, is_except, is_catch_all, is_try, before_else, may_follow};

use crate::HeaderKind;

/// Whether a line with this header goes on with the statement before it in its block.
pub(crate) fn goes_on(header: Option<HeaderKind>) -> bool
    ensures { result ≡ goes_on header }
{
    matches!(
        header,
        Some(HeaderKind::Elif | HeaderKind::Else | HeaderKind::Except | HeaderKind::ExceptAll)
    )
}

pub(crate) fn is_try(header: Option<HeaderKind>) -> bool
    ensures { result ≡ is_try header }
{
    matches!(header, Some(HeaderKind::Try))
}

pub(crate) fn is_except(header: Option<HeaderKind>) -> bool
    ensures { result ≡ is_except header }
{
    matches!(header, Some(HeaderKind::Except | HeaderKind::ExceptAll))
}

pub(crate) fn is_catch_all(header: Option<HeaderKind>) -> bool
    ensures { result ≡ is_catch_all header }
{
    matches!(header, Some(HeaderKind::ExceptAll))
}

/// Whether a line with the header `next` may stand behind one with the header `before`, in one block.
pub(crate) fn may_follow(before: Option<HeaderKind>, next: Option<HeaderKind>) -> bool
    ensures { result ≡ may_follow before next }
{
    match next {
        Some(HeaderKind::Elif) => matches!(before, Some(HeaderKind::If | HeaderKind::Elif)),
        Some(HeaderKind::Else) => may_have_else(before),
        Some(HeaderKind::Except | HeaderKind::ExceptAll) => is_try(before) || is_except(before),
        _ => true,
    }
}

/// Whether `else` may go on with a statement whose last header this is.
fn may_have_else(header: Option<HeaderKind>) -> bool
    ensures { result ≡ before_else header }
{
    matches!(
        header,
        Some(
            HeaderKind::If
                | HeaderKind::Elif
                | HeaderKind::While
                | HeaderKind::For
                | HeaderKind::Except
                | HeaderKind::ExceptAll
        )
    )
}
