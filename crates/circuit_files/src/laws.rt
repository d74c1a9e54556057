ghost use Rattle.std.specs.Prelude.{ℕ, List};
ghost use Rattle.circuit_files.specs.Laws.{GivenFileLaw};

use crate::output_files::OutputFiles;

/// A file that was given a text has it when it is closed, and nothing else. For that files have to
/// be made empty, with known contents. There is a file, unless the text is empty.
pub fn given_file_law<R: OutputFiles>(_files: &R)
    ensures { (path text : List ℕ) → GivenFileLaw R.Output.contents R.is_made R.is_let_go path text }
{}
