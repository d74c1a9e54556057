//! Files that are written. Each of a command's files is opened and closed here, so that one clause
//! says what it was given.
ghost use Rattle.std.specs.Prelude.{◌≡◌, [], Some};
ghost use Rattle.std.specs.Io.{WritesAtMost};
ghost use Rattle.std.specs.Io.KnownBytes.{WriteAppends};
ghost use Rattle.counted_io.specs.Counted.{counted_inner};
ghost use Rattle.circuit_files.specs.WrittenFiles.{HasTaken, IsFileGiven, account};

use crate::given::{Given, Taken};
use crate::output_files::OutputFiles;
use counted_io::Counted;
use std::io;
use std::io::Write;

/// A file that is made, or emptied if it exists, at the first byte written. Until then a file with
/// this path stays as it was.
#[derive(Drop)]
pub struct LazyFile<'a, R: OutputFiles> {
    files: &'a R,
    path: &'a str,
    file: Option<R::Output>,
    given: Given,
    ghost taken: { ∥ HasTaken R.Output.contents R.is_made path.now given.bytes file ∥₁ },
}

impl<'a, R: OutputFiles> LazyFile<'a, R> {
    /// Makes no file yet.
    fn new(files: &'a R, path: &'a str) -> LazyFile<'a, R>
        ensures path { result.path.now ≡ path.now }
        ensures given { result.given.bytes ≡ [] }
    {
        LazyFile {
            files,
            path,
            file: None,
            given: Given::nothing(),
        }
    }

    /// Closes the file, if one was made.
    fn close(self)
        ensures { IsFileGiven R.Output.contents R.is_made R.is_let_go self.entry.path.now
            self.entry.given.bytes }
    {
        let LazyFile { files, file, .. } = self;
        if let Some(file) = file {
            files.let_go(file);
        }
    }
}

/// Opens the file with this path, to be written.
pub fn file_at<'a, R: OutputFiles>(rt: &'a R, path: &'a str) -> Counted<LazyFile<'a, R>>
    ensures path { (counted_inner result).path.now ≡ path.now }
    ensures given { (counted_inner result).given.bytes ≡ [] }
{
    Counted::new(LazyFile::new(rt, path))
}

/// Lets the file go: nothing more is written to it.
pub fn close<R: OutputFiles>(file: Counted<LazyFile<'_, R>>)
    ensures { IsFileGiven R.Output.contents R.is_made R.is_let_go
        (counted_inner file.entry).path.now (counted_inner file.entry).given.bytes }
{
    file.into_inner().close();
}

impl<R: OutputFiles> Write for LazyFile<'_, R> {
    ghost contents = { λ l. Some (account l.path.now l.given.bytes) };

    fn write(&mut self, bytes: &[u8]) -> io::Result<usize>
        ensures bound { WritesAtMost result bytes.now }
        ensures bytes { WriteAppends (Some (account self.old.path.now self.old.given.bytes))
            (Some (account self.new.path.now self.new.given.bytes)) result bytes.now }
    {
        if bytes.is_empty() {
            return Ok(0);
        }
        let mut file = match self.file.take() {
            Some(file) => file,
            None => self.files.make(self.path)?,
        };
        let written = file.write(bytes);
        self.file = Some(file);
        if let Ok(count) = &written {
            let bytes = &bytes[..*count];
            self.given = self.given.then(&Taken { bytes });
        }
        written
    }

    fn flush(&mut self) -> io::Result<()> {
        Ok(())
    }
}
