ghost use Rattle.std.specs.Prelude.{◌≡◌};
ghost use Rattle.witnesses.specs.Statements.{is_comment_line};

pub(crate) fn is_comment(text: &[u8]) -> bool
    ensures { result ≡ is_comment_line text.now }
{
    match text.first() {
        Some(first) => *first == b'c',
        None => false,
    }
}
