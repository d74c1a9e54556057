//! A circuit that is written.
ghost use Rattle.std.specs.Prelude.{◌≡◌, true, false, IfErr, OnOk};
ghost use Rattle.counted_io.specs.Output.{Writes};
ghost use Rattle.aig_binary.specs.Spellings.{text_in};
ghost use Rattle.counted_io.specs.Streams.{is_stdout, target_name};
ghost use Rattle.circuit_files.specs.Outcomes.{IsAbout, outcome_of};
ghost use Rattle.circuit_files.specs.WrittenFiles.{IsFileGiven, IsTargetGiven};
ghost use Rattle.circuit_files.specs.declared.outcome.Outcome.TheVariants.{Device};

use aig_binary::{Spelling, write};
use aig_graph::Circuit;
use circuit_files::{Failure, OutputFiles, close, file_at};
use counted_io::{CountedWrite, Target, WriteError};

/// Writes the circuit to a file or to standard output.
fn put_circuit<R: OutputFiles, O: CountedWrite>(
    rt: &R,
    circuit: &Circuit,
    spelling: Spelling,
    output: Target<'_>,
    out: &mut O,
) -> Result<(), WriteError>
    ensures given { OnOk result
        (IsTargetGiven (IsFileGiven R.Output.contents R.is_made R.is_let_go) output.entry
        (O.output out.old) (O.output out.new) (text_in spelling circuit.now)) }
    ensures stdout { is_stdout output.entry ≡ true → Writes (O.output out.old)
        (O.output out.new) result (text_in spelling circuit.now) }
    ensures file { is_stdout output.entry ≡ false → O.output out.new ≡ O.output out.old }
{
    match output {
        Target::Stdout => write(circuit, spelling, out),
        Target::File(path) => {
            let mut writer = file_at(rt, path);
            let written = write(circuit, spelling, &mut writer);
            close(writer);
            written
        }
    }
}

/// Writes the circuit to a file or to standard output. The one that failed is named. A file is made
/// at its first byte.
pub fn write_circuit<'a, R: OutputFiles, O: CountedWrite>(
    rt: &R,
    circuit: &Circuit,
    spelling: Spelling,
    output: Target<'a>,
    out: &mut O,
) -> Result<(), Failure<'a>>
    ensures given { OnOk result
        (IsTargetGiven (IsFileGiven R.Output.contents R.is_made R.is_let_go) output.entry
        (O.output out.old) (O.output out.new) (text_in spelling circuit.now)) }
    ensures stdout { is_stdout output.entry ≡ true → Writes (O.output out.old)
        (O.output out.new) result (text_in spelling circuit.now) }
    ensures file { is_stdout output.entry ≡ false → O.output out.new ≡ O.output out.old }
    ensures err { IfErr result (λ failure. (outcome_of failure ≡ Device)
        × IsAbout (target_name output.entry) failure) }
{
    match put_circuit(rt, circuit, spelling, output, out) {
        Ok(()) => Ok(()),
        Err(_) => Err(Failure::Device(output.name())),
    }
}
