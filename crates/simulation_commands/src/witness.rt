//! The command `witness`.
ghost use Rattle.std.specs.Prelude.{◌≡◌, IfOk};
ghost use Rattle.aig_graph.specs.Graph as graphs;
ghost use Rattle.witnesses.specs.Texts.{whole_text};
ghost use Rattle.circuit_files.specs.declared.outcome.Outcome.TheVariants.{Done};
ghost use Rattle.simulation_commands.specs.Verdicts.{AreFrameOptions, AreKept, AreLeft, AreLeftAfter, IsCaseOf, IsVerdict, IsJudged, PrintsVerdict, verdict_text, if_many, outcome_of_verdict};
ghost use Rattle.simulation_commands.specs.Verdicts as wanted;
ghost use Rattle.command_endings.specs.Printing.{EndsPrinting, Prints, ending};

use crate::reading::read_circuit;
use aig_graph::{Circuit, NoMemory, Sequence};
use circuit_files::{Failure, Outcome, witness_at};
use clean::all_places;
use command_endings::ended;
use command_line::Carrying;
use counted_io::{CountedRead, CountedWrite};
use frames::{Options, Rounds, retime};
use pulse::{Crew, OpenGate};
use reports::print_shapes_differ;
use std::alloc::Global;
use std::rt::Files;
use std::thread::Threads;
use witnesses::{Confirmed, Objection, Widths, Witness, confirm, print_objection, print_witness};

/// A circuit, the one that it was retimed to, and a witness for that one.
#[derive(Drop)]
struct Case {
    circuit: Circuit,
    retimed: Circuit,
    witness: Witness,
}

/// The verdict on a witness.
#[derive(Drop)]
enum Verdict {
    Confirmed(Confirmed),
    Objected(Objection),
    /// The circuits aren't those of a retiming.
    ShapesDiffer,
}

/// Returns these places of `many` free latches if `free` is that number.
fn if_many(many: u32, places: Sequence<u32>, free: u32) -> Option<Sequence<u32>>
    ensures { result ≡ if_many many places free }
{
    if many == free {
        Some(places)
    } else {
        drop(places);
        None
    }
}

/// Returns the places that a retiming leaves if `free` is their number.
fn places_of(rounds: Rounds, free: u32) -> Option<Sequence<u32>>
    ensures { result ≡ if_many (graphs.free_latches rounds.circuit.aig) rounds.kept_free free }
{
    let Rounds {
        circuit,
        kept_free,
        parts,
        ..
    } = rounds;
    drop(parts);
    let many = circuit.aig().free_latches();
    drop(circuit);
    if_many(many, kept_free, free)
}

/// Returns the options of a retiming that takes at most this many frames and holds no latch.
fn frame_options(alloc: Global, merge: bool, max_frames: u32) -> Options
    ensures { AreFrameOptions merge max_frames result }
{
    Options {
        max_frames,
        merge,
        ..Options::defaults(alloc)
    }
}

/// Returns the places of the free latches that at most this many frames leave of a circuit, if
/// `free` is their number.
fn places_after<R: Threads + Sync>(
    rt: &R,
    alloc: Global,
    circuit: &Circuit,
    free: u32,
    merge: bool,
    max_frames: u32,
) -> Result<Option<Sequence<u32>>, NoMemory>
    ensures { IfOk result (AreLeftAfter merge max_frames circuit.now free) }
{
    let options = frame_options(alloc, merge, max_frames);
    match retime(rt, alloc, circuit, &options, &Crew::new(1, OpenGate)) {
        Ok(rounds) => Ok(places_of(rounds, free)),
        Err(_) => Err(NoMemory),
    }
}

/// More frames than a retiming takes.
const MOST_FRAMES: u32 = 1 << 28;

/// Returns the places that are left before the first frame, if there are any. Otherwise they are
/// those that all frames leave, if `free` is their number.
fn places_then<R: Threads + Sync>(
    rt: &R,
    alloc: Global,
    circuit: &Circuit,
    free: u32,
    merge: bool,
    first: Option<Sequence<u32>>,
) -> Result<Option<Sequence<u32>>, NoMemory>
    requires { AreLeftAfter merge 0 circuit.now free first }
    ensures { IfOk result (AreLeft merge circuit.now free) }
{
    match first {
        Some(places) => Ok(Some(places)),
        None => places_after(rt, alloc, circuit, free, merge, MOST_FRAMES),
    }
}

/// Returns the places of the free latches that a retiming leaves of a circuit. `free` is to be
/// their number before its first frame or at its end.
fn places_left<R: Threads + Sync>(
    rt: &R,
    alloc: Global,
    circuit: &Circuit,
    free: u32,
    merge: bool,
) -> Result<Option<Sequence<u32>>, NoMemory>
    ensures { IfOk result (AreLeft merge circuit.now free) }
{
    match places_after(rt, alloc, circuit, free, merge, 0) {
        Ok(first) => places_then(rt, alloc, circuit, free, merge, first),
        Err(error) => Err(error),
    }
}

/// Returns the places of a retimed circuit's free latches among those of the circuit that it was
/// made of. They keep their order. So these are all if both circuits have equal numbers of free
/// latches. Otherwise they are those that are left before the first frame, if they are as many, and
/// else those that are left at the end.
fn kept_places<R: Threads + Sync>(
    rt: &R,
    alloc: Global,
    circuit: &Circuit,
    retimed: &Circuit,
    merge: bool,
) -> Result<Option<Sequence<u32>>, NoMemory>
    ensures { IfOk result (AreKept merge circuit.now retimed.now) }
{
    let free = retimed.aig().free_latches();
    if circuit.aig().free_latches() == free {
        return match all_places(alloc, circuit.aig()) {
            Ok(places) => Ok(Some(places)),
            Err(error) => Err(error),
        };
    }
    places_left(rt, alloc, circuit, free, merge)
}

/// Returns true if the circuits have equal numbers of properties and inputs.
fn have_same_widths(circuit: &Circuit, retimed: &Circuit) -> bool
    ensures { result ≡ wanted.have_same_widths circuit.now retimed.now }
{
    let widths = Widths::of(circuit);
    let others = Widths::of(retimed);
    let constraints = circuit.props().constraints.len();
    widths.bad == others.bad
        && widths.justice == others.justice
        && widths.inputs == others.inputs
        && retimed.props().constraints.len() == constraints
}

/// Judges a witness, with these free latches kept.
fn judged_with<'a>(
    alloc: Global,
    circuit: &Circuit,
    retimed: &Circuit,
    kept: &[u32],
    witness: Witness,
) -> Result<Verdict, Failure<'a>>
    ensures { IfOk result (IsJudged circuit.now retimed.now kept.now witness) }
{
    match confirm(alloc, circuit, retimed, kept, witness) {
        Ok(Ok(confirmed)) => Ok(Verdict::Confirmed(confirmed)),
        Ok(Err(objection)) => Ok(Verdict::Objected(objection)),
        Err(_) => Err(Failure::Memory),
    }
}

fn judged<'a, R: Threads + Sync>(
    rt: &R,
    alloc: Global,
    circuit: &Circuit,
    retimed: &Circuit,
    merge: bool,
    witness: Witness,
) -> Result<Verdict, Failure<'a>>
    ensures { IfOk result (IsVerdict merge circuit.now retimed.now witness) }
{
    if !have_same_widths(circuit, retimed) {
        drop(witness);
        return Ok(Verdict::ShapesDiffer);
    }
    match kept_places(rt, alloc, circuit, retimed, merge) {
        Ok(Some(kept)) => {
            let verdict = judged_with(alloc, circuit, retimed, kept.as_slice(), witness);
            drop(kept);
            verdict
        }
        Ok(None) => {
            drop(witness);
            Ok(Verdict::ShapesDiffer)
        }
        Err(_) => {
            drop(witness);
            Err(Failure::Memory)
        }
    }
}

/// Judges the witness of a case.
fn verdict_of<'a, R: Threads + Sync>(
    rt: &R,
    alloc: Global,
    given: Case,
    merge: bool,
) -> Result<Verdict, Failure<'a>>
    ensures { IfOk result (IsVerdict merge given.circuit given.retimed given.witness) }
{
    let Case {
        circuit,
        retimed,
        witness,
    } = given;
    let verdict = judged(rt, alloc, &circuit, &retimed, merge, witness);
    drop(circuit);
    drop(retimed);
    verdict
}

/// Reads a circuit, the one that it was retimed to, and a witness for that one, in this order.
fn case_for<'a, R: Files, I: CountedRead>(
    rt: &R,
    alloc: Global,
    task: &Carrying<'a>,
    stdin: &mut I,
) -> Result<Case, Failure<'a>>
    ensures { IfOk result (IsCaseOf task.now (I.input stdin.old) (I.input stdin.new)) }
{
    match read_circuit(rt, alloc, task.input, stdin) {
        Ok(circuit) => match read_circuit(rt, alloc, task.retimed, stdin) {
            Ok(retimed) => match witness_at(rt, alloc, task.witness, &retimed, stdin) {
                Ok(witness) => Ok(Case {
                    circuit,
                    retimed,
                    witness,
                }),
                Err(failure) => {
                    drop(circuit);
                    drop(retimed);
                    Err(failure)
                }
            },
            Err(failure) => {
                drop(circuit);
                Err(failure)
            }
        },
        Err(failure) => Err(failure),
    }
}

fn print_confirmed<'a, O: CountedWrite>(
    confirmed: &Confirmed,
    out: &mut O,
) -> Result<Outcome, Failure<'a>>
    ensures { EndsPrinting Done (whole_text confirmed.now.witness confirmed.now.reached)
        (O.output out.old) (O.output out.new) result }
{
    let printed = print_witness(&confirmed.witness, confirmed.reached.as_slice(), out);
    ended(printed, Outcome::Done)
}

fn print_verdict<'a, O: CountedWrite>(
    verdict: &Verdict,
    out: &mut O,
) -> Result<Outcome, Failure<'a>>
    ensures { EndsPrinting (outcome_of_verdict verdict.now) (verdict_text verdict.now)
        (O.output out.old) (O.output out.new) result }
{
    match verdict {
        Verdict::Confirmed(confirmed) => print_confirmed(confirmed, out),
        Verdict::Objected(objection) => ended(
            print_objection(*objection, out),
            Outcome::Unconfirmed,
        ),
        Verdict::ShapesDiffer => ended(print_shapes_differ(out), Outcome::ShapesDiffer),
    }
}

/// Reads a circuit, the one that it was retimed to, and a witness for that one, in this order.
/// Prints the witness for the first.
pub fn print_witness_back<'a, R: Files + Threads + Sync, I: CountedRead, O: CountedWrite>(
    rt: &R,
    alloc: Global,
    task: &Carrying<'a>,
    stdin: &mut I,
    out: &mut O,
) -> Result<Outcome, Failure<'a>>
    ensures verdict { IfOk result (PrintsVerdict task.now (I.input stdin.old) (I.input stdin.new)
        (O.output out.old) (O.output out.new)) }
    ensures prints { Prints (ending result) (O.output out.old) (O.output out.new) }
{
    match case_for(rt, alloc, task, stdin) {
        Ok(given) => match verdict_of(rt, alloc, given, task.merge) {
            Ok(verdict) => {
                let printed = print_verdict(&verdict, out);
                drop(verdict);
                printed
            }
            Err(failure) => Err(failure),
        },
        Err(failure) => Err(failure),
    }
}
