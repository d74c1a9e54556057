ghost use Rattle.std.specs.Prelude.{ℕ, List};
ghost use Rattle.aig_binary.specs.Limits.{ReadsWithin};

/// A circuit that is read of bytes, of either spelling, has no more properties than a header may
/// state, and no newline in a name.
pub fn read_limits_law()
    ensures { (bytes : List ℕ) → ReadsWithin bytes }
{}
