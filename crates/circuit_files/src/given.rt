//! What a file has been given, which clauses alone see.
ghost use Rattle.std.specs.Prelude.{ℕ, ◌≡◌, ◌++◌, List, []};
ghost use Rattle.std.specs.Borrow.{ftrue};
ghost use Rattle.std.specs.Coded.{coded_list, coded_ℕ};

use std::marker::Model;

/// Bytes that a file takes.
#[derive(Clone, Copy)]
pub(crate) struct Taken<'a> {
    pub bytes: &'a [u8],
}

/// All bytes that a file has taken, in clauses; the value itself takes no room. By itself it says
/// nothing, since a proof by hand may give it any bytes. Who has one ties it to the file.
#[derive(Drop)]
pub(crate) struct Given {
    pub ghost bytes: { List ℕ } by { coded_list coded_ℕ },
}

impl Model for Given {
    ghost also_owns = { λ _. ftrue };
}

impl Given {
    /// Makes that of a file that has taken none.
    pub(crate) fn nothing() -> Given
        ensures { result.bytes ≡ [] }
    {
        Given {}
    }

    /// Makes that of a file that takes more bytes after these.
    pub(crate) fn then(&self, _taken: &Taken<'_>) -> Given
        ensures { result.bytes ≡ self.now.bytes ++ _taken.now.bytes.now }
    {
        Given {}
    }
}
