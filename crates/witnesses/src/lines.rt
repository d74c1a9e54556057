//! Comments may stand anywhere in a witness: they are passed over here, and the reader never meets
//! one.
ghost use Rattle.std.specs.Prelude.{◌≡◌, ◌<◌, ◌∷◌, [], length, IfOk, IfErr, MatchOption, OnSome};
ghost use Rattle.witnesses.specs.declared.fault.WitnessError.TheVariants.{Truncated};
ghost use Rattle.witnesses.specs.Statements.{left};

use crate::fault::WitnessError;
use crate::marks::is_comment;
use file_words::{Line, Lines};

/// Takes the next line that is no comment, if there is one.
pub(crate) fn following<'a>(lines: &mut Lines<'a>) -> Option<Line<'a>>
    ensures end { lines.new.end ≡ lines.old.end }
    ensures shorter { OnSome result (length lines.new.rest.now < length lines.old.rest.now) }
    ensures lines { MatchOption result (left lines.old ≡ [])
        (λ line. left lines.old ≡ record { at = line.at; text = line.text.now }
        ∷ left lines.new) }
{
    while let Some(line) = lines.next_line() {
        if !is_comment(line.text) {
            return Some(line);
        }
    }
    None
}

/// Takes the next line that is no comment.
///
/// # Errors
///
/// `Truncated` at the end of the text, if there is none.
pub(crate) fn next_line<'a>(lines: &mut Lines<'a>) -> Result<Line<'a>, WitnessError>
    ensures end { lines.new.end ≡ lines.old.end }
    ensures ok { IfOk result (λ line. left lines.old
        ≡ record { at = line.at; text = line.text.now } ∷ left lines.new) }
    ensures err { IfErr result (λ error. (error ≡ Truncated lines.old.end)
        × (left lines.old ≡ [])) }
{
    match following(lines) {
        Some(line) => Ok(line),
        None => Err(truncated(lines)),
    }
}

/// Returns the fault of a line that is missing at the end.
pub(crate) fn truncated(lines: &Lines<'_>) -> WitnessError
    ensures { result ≡ Truncated lines.now.end }
{
    WitnessError::Truncated(lines.end())
}
