//! What is made of circuits and a map, and how it is written.
ghost use Rattle.std.specs.Prelude.{IfOk};
ghost use Rattle.circuit_files.specs.WrittenFiles.{IsFileGiven};
ghost use Rattle.command_endings.specs.Printing.{Prints, ending};
ghost use Rattle.map_commands.specs.Making.{EndsMaking};

use aig_binary::Spelling;
use aig_graph::Circuit;
use circuit_files::{Failure, Outcome, OutputFiles};
use command_endings::{ended, write_circuit};
use counted_io::{CountedWrite, Target};
use reports::print_shapes_differ;

/// What is made of circuits and a map.
#[derive(Drop)]
pub(crate) enum Made {
    /// A circuit.
    Circuit(Circuit),
    /// Nothing: the circuits differ in their inputs or properties.
    ShapesDiffer,
}

/// Writes what is made, or prints that the shapes of the circuits differ.
pub(crate) fn write_made<'a, R: OutputFiles, O: CountedWrite>(
    rt: &R,
    made: &Made,
    spelling: Spelling,
    output: Target<'a>,
    out: &mut O,
) -> Result<Outcome, Failure<'a>>
    ensures written { IfOk result
        (EndsMaking (IsFileGiven R.Output.contents R.is_made R.is_let_go) made.now
        spelling output.entry (O.output out.old) (O.output out.new)) }
    ensures prints { Prints (ending result) (O.output out.old) (O.output out.new) }
{
    match made {
        Made::Circuit(circuit) => match write_circuit(rt, circuit, spelling, output, out) {
            Ok(()) => Ok(Outcome::Done),
            Err(failure) => Err(failure),
        },
        Made::ShapesDiffer => ended(print_shapes_differ(out), Outcome::ShapesDiffer),
    }
}
