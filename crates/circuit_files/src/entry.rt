ghost use Rattle.std.specs.Prelude.{◌≡◌, ◌==◌, option_map, position};
ghost use Rattle.std.specs.List.{list_any};
ghost use Rattle.circuit_files.specs.Lists as lists;
ghost use Rattle.circuit_files.specs.Entries.{paths, text_of};

use std::str;

/// A line of a list.
#[derive(Clone, Copy, Drop)]
pub struct Entry<'a> {
    /// The path of the file that is read.
    pub input: &'a str,
    /// The path of the file that is written.
    pub output: &'a str,
}

/// Returns the entry of a line, without its newline.
pub(crate) fn entry_of(line: &[u8]) -> Option<Entry<'_>>
    ensures { option_map paths result ≡ lists.paths_of line.now }
{
    match tab_at(line) {
        Some(at) => entry_around(&line[..at], &line[at + 1..]),
        None => None,
    }
}

/// Returns the entry of the bytes before the first tab of a line, and after it.
fn entry_around<'a>(input: &'a [u8], output: &'a [u8]) -> Option<Entry<'a>>
    ensures { option_map paths result ≡ lists.paths_apart input.now output.now }
{
    if has_tab(output) {
        return None;
    }
    match (as_text(input), as_text(output)) {
        (Some(input), Some(output)) => Some(Entry { input, output }),
        _ => None,
    }
}

/// Returns the index of the first tab.
fn tab_at(bytes: &[u8]) -> Option<usize>
    ensures { result ≡ position (λ b. b == 9) bytes.now }
{
    bytes.iter().position(|byte| *byte == b'\t')
}

fn has_tab(bytes: &[u8]) -> bool
    ensures { result ≡ list_any (λ b. b == 9) bytes.now }
{
    bytes.iter().any(|byte| *byte == b'\t')
}

/// Returns the text of the bytes, if they are UTF-8.
fn as_text(bytes: &[u8]) -> Option<&str>
    ensures { option_map (λ text. text.now) result ≡ text_of bytes.now }
{
    match str::from_utf8(bytes) {
        Ok(text) => Some(text),
        Err(_) => None,
    }
}
