//! The command `convert`.
ghost use Rattle.std.specs.Prelude.{◌≡◌, IfOk};
ghost use Rattle.circuit_files.specs.WrittenFiles.{IsFileGiven};
ghost use Rattle.commands.specs.OtherSpelling.{other_spelling};
ghost use Rattle.commands.specs.OtherSpelling as wanted;
ghost use Rattle.commands.specs.Pipes.{Converts};
ghost use Rattle.command_endings.specs.Printing.{Prints, ending};

use aig_binary::Spelling;
use circuit_files::{Failure, Outcome, OutputFiles, circuit_at};
use command_endings::write_circuit;
use counted_io::{CountedRead, CountedWrite, Source, Target};
use std::alloc::Global;
use std::rt::Files;

fn other(spelling: Spelling) -> Spelling
    ensures { result ≡ other_spelling spelling }
{
    match spelling {
        Spelling::Ascii => Spelling::Binary,
        Spelling::Binary => Spelling::Ascii,
    }
}

/// Returns the chosen spelling, or the one that wasn't read if none is chosen.
fn spelling_for(read: Spelling, chosen: Option<Spelling>) -> Spelling
    ensures { result ≡ wanted.spelling_for read chosen }
{
    chosen.unwrap_or(other(read))
}

/// Reads a circuit, and writes it in the chosen spelling, or in the one that wasn't read if none is
/// chosen.
pub fn convert<'a, R: Files + OutputFiles, I: CountedRead, O: CountedWrite>(
    rt: &R,
    alloc: Global,
    input: Source<'a>,
    output: Target<'a>,
    spelling: Option<Spelling>,
    stdin: &mut I,
    out: &mut O,
) -> Result<Outcome, Failure<'a>>
    ensures converts { IfOk result
        (λ _. Converts (IsFileGiven R.Output.contents R.is_made R.is_let_go) spelling
        input.entry output.entry (I.input stdin.old) (O.output out.old) (O.output out.new)) }
    ensures prints { Prints (ending result) (O.output out.old) (O.output out.new) }
{
    match circuit_at(rt, alloc, input, stdin) {
        Ok(spelt) => {
            let spelling = spelling_for(spelt.spelling, spelling);
            let written = write_circuit(rt, &spelt.circuit, spelling, output, out);
            drop(spelt);
            match written {
                Ok(()) => Ok(Outcome::Done),
                Err(failure) => Err(failure),
            }
        }
        Err(failure) => Err(failure),
    }
}
