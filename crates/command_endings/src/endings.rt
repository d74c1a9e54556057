ghost use Rattle.std.specs.Prelude.{ℕ, ◌≡◌, List, IsOk, IsErr, IfOk, IfErr, codes};
ghost use Rattle.std.specs.Borrow.{Bor};
ghost use Rattle.circuit_files.specs.Outcomes.{outcome_of};
ghost use Rattle.circuit_files.specs.declared.outcome.Outcome.TheVariants.{Device};
ghost use Rattle.circuit_files.specs.declared.outcome.Failure.TheVariants as fails;

use circuit_files::{Failure, Outcome};
use counted_io::WriteError;

/// Returns the end of a command that has printed, if standard output took all of it.
pub fn ended<'a>(printed: Result<(), WriteError>, outcome: Outcome) -> Result<Outcome, Failure<'a>>
    ensures ok { IfOk result (λ ended. (ended ≡ outcome) × IsOk printed) }
    ensures err { IfErr result (λ failure. (outcome_of failure ≡ Device) × IsErr printed) }
    ensures stdout { IfErr result (λ failure. (name : Bor (List ℕ)) × (name.now ≡ codes "stdout")
        × (failure ≡ fails.Device name)) }
{
    match printed {
        Ok(()) => Ok(outcome),
        Err(_) => Err(Failure::Device("stdout")),
    }
}
