ghost use Rattle.std.specs.Prelude.{ℕ, List, ◌≡◌, Ok};
ghost use Rattle.certificate_files.specs.declared.file.CertFile.{CertFile as File};
ghost use Rattle.certificate_files.specs.Files.{read_text};
ghost use Rattle.certificate_files.specs.Laws.{CertificatesRoundTripLaw, RereadingLaw};

/// The text that `write_cert` wrote of a file is read as that file by `read_cert`. For that no
/// route may be empty, and no number and no block's count of gates or routes may be above 2^28 - 1.
/// All parts list merged latches, or there is one part.
pub fn round_trip_law()
    ensures { (f : File) → CertificatesRoundTripLaw f }
{}

/// A file that `read_cert` read has these bounds: written, it is read as itself again.
pub fn rereading_law()
    ensures { (bytes : List ℕ) (f : File) → read_text bytes ≡ Ok f → RereadingLaw f }
{}
