ghost use Rattle.std.specs.Prelude.{◌≡◌, List, None};
ghost use Rattle.counted_io.specs.declared.source.Source.{Source};
ghost use Rattle.circuit_files.specs.declared.entry.Entry.{Entry};
ghost use Rattle.file_identities.specs.Clashes.{AreFilesApart, first_clash};
ghost use Rattle.file_identities.specs.ListFiles.{AreListFilesApart, IsListClash};
ghost use Rattle.file_identities.specs.declared.identity.Asked.{Asked};

/// If no clash is found there is none, whatever the file system answered. Nothing that is written
/// stands in the file of something else that is written, or is read, so that anything would be
/// lost.
pub fn apart_law()
    ensures { (written read : List Asked) → first_clash written read ≡ None
        → AreFilesApart written read }
{}

/// Let no line of a list have a clash. Then none of the files that it writes and reads are one, so
/// that anything would be lost. That is by some answers of the file system, one for each.
pub fn list_apart_law()
    ensures { (list : Source) (entries : List Entry) → IsListClash list entries None
        → AreListFilesApart list entries }
{}
