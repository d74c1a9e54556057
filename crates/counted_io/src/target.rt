ghost use Rattle.std.specs.Prelude.{◌≡◌};
ghost use Rattle.counted_io.specs.Streams.{target_name, target_of};
ghost use Rattle.counted_io.specs.Streams as wanted;

/// What a path that is written stands for.
#[derive(Clone, Copy)]
pub enum Target<'a> {
    /// Standard output.
    Stdout,
    /// The file with this path.
    File(&'a str),
}

impl<'a> Target<'a> {
    /// Returns standard output for `-`, otherwise the file.
    pub fn of(path: &'a str) -> Target<'a>
        ensures { result ≡ target_of path.entry }
    {
        if path == "-" {
            Target::Stdout
        } else {
            Target::File(path)
        }
    }

    pub fn is_stdout(&self) -> bool
        ensures { result ≡ wanted.is_stdout self.now }
    {
        match self {
            Target::Stdout => true,
            Target::File(_) => false,
        }
    }

    /// Returns the name that messages have for it: `stdout`, or the path of the file.
    pub fn name(self) -> &'a str
        ensures { result.now ≡ target_name self.entry }
    {
        match self {
            Target::Stdout => "stdout",
            Target::File(path) => path,
        }
    }
}
