ghost use Rattle.std.specs.Prelude.{◌≡◌, ◌==◌, ◌<◌, MatchOption, length, position, true};
ghost use Rattle.file_words.specs.Cuts.{lacks, Cuts, IsFirst};

/// Returns the bytes before the first mark and those after it, or `None` if there is no mark.
pub fn cut(bytes: &[u8], mark: u8) -> Option<(&[u8], &[u8])>
    ensures { MatchOption result (lacks mark bytes.now ≡ true)
        (λ parts. Cuts mark bytes.now parts.0.now parts.1.now) }
{
    match mark_at(bytes, mark) {
        Some(end) => Some((&bytes[..end], &bytes[end + 1..])),
        None => None,
    }
}

/// Returns the index of the first mark.
fn mark_at(bytes: &[u8], mark: u8) -> Option<usize>
    ensures { result ≡ position (λ b. b == mark) bytes.now }
{
    bytes.iter().position(|byte| *byte == mark)
}

/// Returns the first line of a text that isn't empty, without its newline, and what follows it.
pub fn first_line(text: &[u8]) -> (&[u8], &[u8])
    requires { 0 < length text.now }
    ensures { IsFirst text.now result.0.now result.1.now }
{
    match cut(text, b'\n') {
        Some(parts) => parts,
        None => (text, &text[text.len()..]),
    }
}
