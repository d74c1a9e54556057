ghost use Rattle.std.specs.Prelude.{◌≡◌, ◌≤◌, ◌-◌, [], length, IfOk, IfErr};
ghost use Rattle.file_words.specs.Cuts.{IsFirst};
ghost use Rattle.certificate_files.specs.declared.fault.CertError.TheVariants.{Truncated};

use crate::fault::CertError;
use file_words::{Line, Lines};

/// Takes the next line.
///
/// # Errors
///
/// `Truncated` at the end of the text, if there is none.
pub(crate) fn next_line<'a>(lines: &mut Lines<'a>) -> Result<Line<'a>, CertError>
    ensures end { lines.new.end ≡ lines.old.end }
    ensures within { length lines.old.rest.now ≤ lines.old.end }
    ensures shorter { length lines.new.rest.now ≤ length lines.old.rest.now }
    ensures ok { IfOk result (λ line. (line.at ≡ lines.old.end - length lines.old.rest.now)
        × IsFirst lines.old.rest.now line.text.now lines.new.rest.now) }
    ensures err { IfErr result (λ error. (error ≡ Truncated lines.old.end)
        × (lines.old.rest.now ≡ [])) }
{
    match lines.next_line() {
        Some(line) => Ok(line),
        None => Err(CertError::Truncated(lines.end())),
    }
}
