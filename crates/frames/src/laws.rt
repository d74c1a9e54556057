ghost use Rattle.std.specs.Prelude.{ℕ, List};
ghost use Rattle.frame_runs.specs.declared.options.Options.{Options};
ghost use Rattle.frames.specs.Answering.{IsOneAnswer};

/// States that the answer and the written text depend on the bytes and the options alone.
///
/// They don't depend on the crew, on the pieces in which the bytes are read, or on what was written
/// before. Asking for certificates changes nothing else, and of certificates only the routes may
/// differ. If latches are merged, there is one answer for each list of merged latches of each
/// round.
pub fn answer_law()
    ensures { (bytes : List ℕ) (options : Options) → IsOneAnswer bytes options }
{}
