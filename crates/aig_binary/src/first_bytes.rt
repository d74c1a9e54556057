ghost use Rattle.std.specs.Prelude.{◌≡◌};
ghost use Rattle.aig_binary.specs.Spellings.{spelling_of};

use file_words::Spelling;

/// Returns the spelling that the first three bytes name, or `None` if they are neither's, or fewer
/// than three. Takes no memory.
pub fn spelling(bytes: &[u8]) -> Option<Spelling>
    ensures { result ≡ spelling_of bytes.now }
{
    if bytes.starts_with(b"aag") {
        Some(Spelling::Ascii)
    } else if bytes.starts_with(b"aig") {
        Some(Spelling::Binary)
    } else {
        None
    }
}
