//! The start of a run: the circuit that was read is cleaned. If the options ask for it, it is
//! merged and cleaned again.
//!
//! After that the run doesn't need the circuit that was read. A caller that doesn't need it either
//! gives it up as the run begins.
ghost use Rattle.std.specs.Prelude.{ℕ, ◌≡◌, ◌<◌, false, All, IfOk, [], List, None, length, true};
ghost use Rattle.aig_graph.specs.Circuits.{Netlist};
ghost use Rattle.aig_graph.specs.Graph.{free_latches};
ghost use Rattle.cleaned_circuits.specs.Cleaned.{Cleans};
ghost use Rattle.cleaned_circuits.specs.Held.{HeldAfter};
ghost use Rattle.frame_runs.specs.Beginning.{IsRunBegun, IsCleanedRun, IsMergedFrom};
ghost use Rattle.frame_runs.specs.Bounds.{bound_in};
ghost use Rattle.frame_runs.specs.Following.{ComesOn, HasComeFrom, HasComeTo};
ghost use Rattle.frame_runs.specs.Given.{circuit_of};
ghost use Rattle.frame_runs.specs.Named.{kept_by};
ghost use Rattle.retimed_circuits.specs.Retiming.{since_merged};

use crate::follower::RunFollower;
use crate::given::GivenCircuit;
use crate::options::Options;
use crate::run::Run;
use aig_graph::{Circuit, Keep, NoMemory, Sequence};
use certificates::MergedLatch;
use clean::{Cleaned, composed};
use latch_merging::MergedStart;
use retimed_circuits::Retimed;
use std::alloc::Global;

/// Returns a run that has no frames yet, from `start`, the cleaned circuit. `follower` has come to
/// it. The circuit that was read had `read_latches` latches.
fn begun<F>(
    alloc: Global,
    start: Cleaned,
    read_latches: u32,
    follower: F,
    bound: Option<u32>,
) -> Run<Retimed, F>
    ensures circuit { result.retimed.circuit ≡ start.circuit }
    ensures kept_free { result.retimed.kept_free ≡ start.kept_free }
    ensures read_latches { result.retimed.read_latches ≡ read_latches }
    ensures merged { result.retimed.merged ≡ None }
    ensures frames { result.retimed.frames ≡ [] }
    ensures keep { result.keep ≡ start.keep }
    ensures follower { result.follower ≡ follower }
    ensures bound { result.bound ≡ bound }
{
    let Cleaned {
        circuit,
        keep,
        kept_free,
        ..
    } = start;
    Run {
        retimed: Retimed {
            circuit,
            kept_free,
            read_latches,
            merged: None,
            frames: Sequence::empty(alloc),
            certificates: Sequence::empty(alloc),
        },
        keep,
        follower,
        bound,
    }
}

/// The least number of gates of a circuit that is cleaned in its own tables as a run begins. A
/// smaller one is copied as it is cleaned, and its tables are let go. Then the C library keeps such
/// room for the frames. Else it would give pages back in each frame, and ask for them in the next.
const LARGE: usize = 131_072;

/// Cleans the circuit that a run begins with by `follower`, which has come to it.
fn first_cleaned<F: RunFollower>(
    alloc: Global,
    follower: &mut F,
    given: GivenCircuit<'_>,
    keep: &Keep,
) -> Result<Cleaned, F::Stop>
    requires there { HasComeTo F.has_come follower.old (circuit_of given) }
    requires in_range { All (λ j. j < length (circuit_of given).aig.latches) keep.now }
    ensures cleaned { IfOk result (λ d. Cleans d.circuit keep.now (circuit_of given.entry)
        d.kept_free) }
    ensures held { IfOk result (λ d. HeldAfter d.circuit d.keep keep.now
        (circuit_of given.entry)) }
    ensures comes { IfOk result (λ d. ComesOn F.has_come follower.old follower.new
        (circuit_of given.entry) d.circuit d.kept_free) }
{
    let lent = given.circuit();
    let large = lent.aig().gates().len() >= LARGE;
    if large {
        follower.clean(alloc, given, keep)
    } else {
        let cleaned = follower.clean(alloc, GivenCircuit::Lent(lent), keep);
        drop(given);
        cleaned
    }
}

/// Cleans the circuit by `follower`, which has come to it, and returns the run that starts there.
fn cleaned_run<F: RunFollower + Drop>(
    alloc: Global,
    follower: F,
    given: GivenCircuit<'_>,
    keep: &Keep,
    bound: Option<u32>,
    options: &Options,
) -> Result<Run<Retimed, F>, F::Stop>
    requires there { HasComeTo F.has_come follower (circuit_of given) }
    requires in_range { All (λ j. j < length (circuit_of given).aig.latches) keep.now }
    ensures { IfOk result (λ run. IsCleanedRun F.has_come options.now bound
        (circuit_of given.entry) keep.now follower run.follower run.retimed run.keep
        × (run.bound ≡ bound)) }
{
    let _options = options;
    let lent = given.circuit();
    lent.known();
    let mut follower = follower;
    let read_latches = lent.aig().latches().len() as u32;
    match first_cleaned(alloc, &mut follower, given, keep) {
        Ok(cleaned) => Ok(begun(alloc, cleaned, read_latches, follower, bound)),
        Err(error) => {
            drop(follower);
            Err(error)
        }
    }
}

/// Begins a run that merges no latches.
fn begun_as_is<F: RunFollower + Drop>(
    alloc: Global,
    follower: F,
    given: GivenCircuit<'_>,
    keep: &Keep,
    bound: Option<u32>,
    options: &Options,
) -> Result<Run<Retimed, F>, F::Stop>
    requires there { (b : Netlist) × (before : List ℕ)
        × HasComeFrom F.has_come follower b before (circuit_of given) }
    requires keep { keep.now ≡ kept_by options.now (circuit_of given) }
    requires bound { bound ≡ bound_in options.now (circuit_of given) }
    requires merge { options.now.merge ≡ false }
    ensures { IfOk result (λ begun. (b : Netlist) (before : List ℕ)
        → HasComeFrom F.has_come follower b before (circuit_of given.entry)
        → IsRunBegun F.has_come options.now b before (circuit_of given.entry) begun) }
{
    given.circuit().known();
    cleaned_run(alloc, follower, given, keep, bound, options)
}

/// Reports `retimed`, the merged circuit, as the circuit that was read. That one had `latches`
/// latches. `before` has the places of the merged circuit's free latches.
fn reported_of_read(
    alloc: Global,
    retimed: Retimed,
    latches: u32,
    before: Sequence<u32>,
    merged: Sequence<MergedLatch>,
) -> Result<Retimed, NoMemory>
    requires { All (λ place. place < length before) retimed.kept_free }
    ensures { IfOk result (λ r. r ≡ since_merged latches before merged retimed) }
{
    let Retimed {
        circuit,
        kept_free,
        frames,
        certificates,
        ..
    } = retimed;
    match composed(alloc, before.as_slice(), kept_free.as_slice()) {
        Ok(places) => Ok(Retimed {
            circuit,
            kept_free: Sequence::from_vec(places),
            read_latches: latches,
            merged: Some(merged),
            frames,
            certificates,
        }),
        Err(error) => {
            drop(circuit);
            drop(certificates);
            Err(error)
        }
    }
}

/// Reports a run from a merged circuit as one from the circuit that was read.
fn run_of_read<F: RunFollower + Drop>(
    alloc: Global,
    run: Run<Retimed, F>,
    latches: u32,
    before: Sequence<u32>,
    merged: Sequence<MergedLatch>,
) -> Result<Run<Retimed, F>, F::Stop>
    requires { All (λ place. place < length before) run.retimed.kept_free }
    ensures { IfOk result (λ end. (end.retimed ≡ since_merged latches before merged run.retimed)
        × (end.keep ≡ run.keep) × (end.follower ≡ run.follower)
        × (end.bound ≡ run.bound)) }
{
    let Run {
        retimed,
        keep,
        follower,
        bound,
    } = run;
    match reported_of_read(alloc, retimed, latches, before, merged) {
        Ok(retimed) => Ok(Run {
            retimed,
            keep,
            follower,
            bound,
        }),
        Err(error) => {
            drop(keep);
            drop(follower);
            Err(F::Stop::from(error))
        }
    }
}

/// Cleans the merged circuit of `start`. The circuit that was read had `latches` latches.
fn merged_run<F: RunFollower + Drop>(
    alloc: Global,
    follower: F,
    start: MergedStart,
    latches: u32,
    bound: Option<u32>,
    options: &Options,
) -> Result<Run<Retimed, F>, F::Stop>
    requires there { HasComeTo F.has_come follower start.circuit }
    requires in_range { All (λ j. j < length start.circuit.aig.latches) start.keep }
    requires places { length start.kept_free ≡ free_latches start.circuit.aig }
    ensures { IfOk result (λ run. IsMergedFrom F.has_come options.now start latches follower run
        × (run.bound ≡ bound)) }
{
    let MergedStart {
        circuit,
        keep,
        kept_free,
        merged,
    } = start;
    let owned = GivenCircuit::Owned(circuit);
    let run = cleaned_run(alloc, follower, owned, &keep, bound, options)?;
    run_of_read(alloc, run, latches, kept_free, merged)
}

/// Begins a run that merges latches that always agree.
fn begun_merged<F: RunFollower + Drop>(
    alloc: Global,
    follower: F,
    circuit: &Circuit,
    keep: &Keep,
    bound: Option<u32>,
    options: &Options,
) -> Result<Run<Retimed, F>, F::Stop>
    requires there { (b : Netlist) × (before : List ℕ)
        × HasComeFrom F.has_come follower b before circuit.now }
    requires keep { keep.now ≡ kept_by options.now circuit.now }
    requires bound { bound ≡ bound_in options.now circuit.now }
    requires merge { options.now.merge ≡ true }
    ensures { IfOk result (λ begun. (b : Netlist) (before : List ℕ)
        → HasComeFrom F.has_come follower b before circuit.now
        → IsRunBegun F.has_come options.now b before circuit.now begun) }
{
    circuit.known();
    let latches = circuit.aig().latches().len() as u32;
    let mut follower = follower;
    match follower.clean_and_merge(alloc, circuit, keep, options) {
        Ok(start) => merged_run(alloc, follower, start, latches, bound, options),
        Err(error) => {
            drop(follower);
            Err(error)
        }
    }
}

/// Begins a run under `bound`, merged if the options ask for it.
fn begun_under<F: RunFollower + Drop>(
    alloc: Global,
    follower: F,
    given: GivenCircuit<'_>,
    keep: &Keep,
    bound: Option<u32>,
    options: &Options,
) -> Result<Run<Retimed, F>, F::Stop>
    requires there { (b : Netlist) × (before : List ℕ)
        × HasComeFrom F.has_come follower b before (circuit_of given) }
    requires keep { keep.now ≡ kept_by options.now (circuit_of given) }
    requires bound { bound ≡ bound_in options.now (circuit_of given) }
    ensures { IfOk result (λ begun. (b : Netlist) (before : List ℕ)
        → HasComeFrom F.has_come follower b before (circuit_of given.entry)
        → IsRunBegun F.has_come options.now b before (circuit_of given.entry) begun) }
{
    if options.merge {
        let begun = begun_merged(alloc, follower, given.circuit(), keep, bound, options);
        drop(given);
        begun
    } else {
        begun_as_is(alloc, follower, given, keep, bound, options)
    }
}

/// Begins a run of a circuit, up to its first frame. [`finish`](crate::finish) takes the frames.
///
/// `follower` has come to the circuit, from there or from another one. `keep` has the latches that
/// the options hold ([`hold_by`](crate::hold_by)).
///
/// A circuit that is owned is let go. If it is large and no latches are merged, it is cleaned in
/// its own tables.
///
/// # Errors
///
/// An error of the follower; `NoMemory` if memory is refused.
pub fn begin<F: RunFollower + Drop>(
    alloc: Global,
    given: GivenCircuit<'_>,
    keep: &Keep,
    options: &Options,
    follower: F,
) -> Result<Run<Retimed, F>, F::Stop>
    requires there { (b : Netlist) × (before : List ℕ)
        × HasComeFrom F.has_come follower b before (circuit_of given) }
    requires keep { keep.now ≡ kept_by options.now (circuit_of given) }
    ensures { IfOk result (λ begun. (b : Netlist) (before : List ℕ)
        → HasComeFrom F.has_come follower b before (circuit_of given.entry)
        → IsRunBegun F.has_come options.now b before (circuit_of given.entry) begun) }
{
    match options.bound.for_circuit(alloc, given.circuit()) {
        Ok(bound) => begun_under(alloc, follower, given, keep, bound, options),
        Err(error) => {
            drop(follower);
            drop(given);
            Err(F::Stop::from(error))
        }
    }
}
