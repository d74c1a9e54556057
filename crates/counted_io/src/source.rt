ghost use Rattle.std.specs.Prelude.{◌≡◌};
ghost use Rattle.counted_io.specs.Streams.{source_name, source_of};
ghost use Rattle.counted_io.specs.Streams as wanted;

/// What a path that is read stands for.
#[derive(Clone, Copy)]
pub enum Source<'a> {
    /// Standard input.
    Stdin,
    /// The file with this path.
    File(&'a str),
}

impl<'a> Source<'a> {
    /// Returns standard input for `-`, otherwise the file.
    pub fn of(path: &'a str) -> Source<'a>
        ensures { result ≡ source_of path.entry }
    {
        if path == "-" {
            Source::Stdin
        } else {
            Source::File(path)
        }
    }

    pub fn is_stdin(&self) -> bool
        ensures { result ≡ wanted.is_stdin self.now }
    {
        match self {
            Source::Stdin => true,
            Source::File(_) => false,
        }
    }

    /// Returns the name that messages have for it: `stdin`, or the path of the file.
    pub fn name(self) -> &'a str
        ensures { result.now ≡ source_name self.entry }
    {
        match self {
            Source::Stdin => "stdin",
            Source::File(path) => path,
        }
    }
}
