//! The files that a run makes.
ghost use Rattle.std.specs.Prelude.{ℕ, IfOk, List};

use std::fs::File;
use std::io;
use std::io::Write;

/// Makes files, and closes them. Both are relations that each implementation chooses. So a function
/// that takes any can say that a file was made at a path only of one that it had made there. It can
/// say that a file was closed only of one that can't be written any more.
pub trait OutputFiles {
    /// A file that is written.
    type Output: Write + Drop;

    /// The file was made at this path, or emptied if it existed, and is as it was then.
    ghost is_made: { Self.Output → List ℕ → Type 0 };

    /// The file was let go like this.
    ghost is_let_go: { Self.Output → Type 0 };

    /// Makes the file with this path, or empties it if it exists.
    fn make(&self, path: &str) -> io::Result<Self::Output>
        ensures { IfOk result (λ file. is_made file path.now) };

    /// Lets the file go.
    fn let_go(&self, file: Self::Output)
        ensures { is_let_go file };
}

/// Those of the system. What becomes of them no clause can know.
impl OutputFiles for HostRuntime {
    type Output = File;

    ghost is_made = { λ _ _. Unit {0} };

    ghost is_let_go = { λ _. Unit {0} };

    fn make(&self, path: &str) -> io::Result<File> {
        File::create(self, path)
    }

    fn let_go(&self, file: File) {
        drop(file);
    }
}
