//! When a run is shown.
ghost use Rattle.std.specs.Prelude.{◌≡◌, ⊤};
ghost use Rattle.command_endings.specs.progress.Shows as wanted;

mod laps;
mod lines;
mod stopwatch;

use crate::progress::lines::{clear_line, write_in_place, write_line};
use crate::progress::stopwatch::Stopwatch;
use aig_graph::Aig;
use backward_moves::{MoveStage, MoveWatcher};
use command_line::Shown;
use counted_io::CountedWrite;
use frame_runs::{FrameWatcher, Stage};
use json_reports::Times;
pub use lines::{Frame, State};
use std::alloc::Global;
use std::mem;
use std::time::{Clock, Instant};

/// What is shown of a run.
#[derive(Clone, Copy)]
enum Show {
    /// Nothing.
    Nothing,
    /// A line for each frame that is looked for.
    EachFrame,
    /// From the first stage that begins a second after the run did, one line, which each stage
    /// writes over.
    InPlace,
}

/// Returns what is shown of a run that asks for this.
fn show_for(shown: Shown, is_terminal: bool) -> Show
    ensures { result ≡ wanted.show_for shown is_terminal }
{
    match shown {
        Shown::EachFrame => Show::EachFrame,
        Shown::OnTerminal if is_terminal => Show::InPlace,
        Shown::OnTerminal | Shown::Nothing => Show::Nothing,
    }
}

/// Returns the frame after `taken` frames, whose set is looked for in the graph.
fn frame_of(taken: u64, aig: &Aig) -> Frame
    ensures { result ≡ wanted.frame_of taken aig.now }
{
    Frame {
        number: taken.saturating_add(1),
        latches: aig.known_latches(),
        gates: aig.gates().len() as u64,
    }
}

/// Shows a run on a writer, mostly standard error. A write that fails changes nothing of the run.
///
/// The seconds are whole ones since this was made; they are left out if the clock can't be read.
#[derive(Drop)]
pub struct Progress<'a, R, E> {
    show: Show,
    clock: &'a R,
    began: Option<Instant>,
    err: &'a mut E,
    /// The frames that were taken, in all rounds.
    taken: u64,
    frame: Option<Frame>,
    on_line: bool,
    watch: Option<Stopwatch>,
}

impl<'a, R: Clock, E: CountedWrite> Progress<'a, R, E> {
    /// Shows a run on `err` as it is asked, and takes its times if these are wanted; `is_terminal`
    /// is whether `err` is a terminal.
    pub fn new(
        shown: Shown,
        is_timed: bool,
        is_terminal: bool,
        clock: &'a R,
        alloc: Global,
        err: &'a mut E,
    ) -> Progress<'a, R, E> {
        let watch = if is_timed {
            Stopwatch::start(clock, alloc)
        } else {
            None
        };
        Progress {
            show: show_for(shown, is_terminal),
            clock,
            began: Instant::now(clock).ok(),
            err,
            taken: 0,
            frame: None,
            on_line: false,
            watch,
        }
    }

    /// Returns the whole seconds since the run began.
    fn seconds(&self) -> Option<u64> {
        match self.began {
            Some(began) => match began.elapsed(self.clock) {
                Ok(elapsed) => Some(elapsed.as_secs()),
                Err(_) => None,
            },
            None => None,
        }
    }

    /// Returns what the run does in this stage; it moves over the set of the frame that was looked
    /// for last. A further round counts its frames anew, so they are counted here.
    fn state_in(&mut self, stage: Stage<'_>) -> Option<State> {
        match stage {
            Stage::Cleaning => Some(State::Cleaning),
            Stage::Looking { aig, .. } => {
                let frame = frame_of(self.taken, aig);
                self.frame = Some(frame);
                Some(State::Looking(frame))
            }
            Stage::Moving => {
                self.taken = self.taken.saturating_add(1);
                Some(State::Moving(self.frame?))
            }
            Stage::Writing => Some(State::Writing),
        }
    }

    /// Writes the line over, if the run has taken a second.
    fn write_over(&mut self, state: State) {
        let seconds = self.seconds();
        if seconds.unwrap_or(0) > 0 {
            let _ = write_in_place(state, seconds, self.err);
            self.on_line = true;
        }
    }

    /// Clears the line in its place, if there is one.
    fn clear(&mut self) {
        if self.on_line {
            let _ = clear_line(self.err);
            self.on_line = false;
        }
    }

    /// Shows no more of the run, which has ended, and returns what was measured of it, if anything
    /// was.
    pub fn end(&mut self) -> Option<Times> {
        self.clear();
        match mem::replace(&mut self.watch, None) {
            Some(watch) => watch.stop(self.clock),
            None => None,
        }
    }

    /// Shows what the run does from now on: by a line of its own for each frame that is looked for,
    /// or in one line.
    fn show_state(&mut self, state: State) {
        match self.show {
            Show::Nothing => {}
            Show::EachFrame => {
                if let State::Looking(frame) = state {
                    let _ = write_line(frame, self.seconds(), self.err);
                }
            }
            Show::InPlace => self.write_over(state),
        }
    }

    /// Shows that the stage begins.
    fn show_stage(&mut self, stage: Stage<'_>) {
        if let Show::Nothing = self.show {
            return;
        }
        if let Some(state) = self.state_in(stage) {
            self.show_state(state);
        }
    }
}

/// Returns what a run that moves latches backward does in this stage.
fn state_of(stage: MoveStage) -> State {
    match stage {
        MoveStage::Looking {
            taken,
            latches,
            gates,
        } => State::Looking(Frame {
            number: (taken as u64).saturating_add(1),
            latches,
            gates: gates as u64,
        }),
        MoveStage::Checking => State::Checking,
        MoveStage::Writing => State::Writing,
    }
}

/// What it was told isn't kept, so no clause speaks of it.
impl<R: Clock, E: CountedWrite> FrameWatcher for Progress<'_, R, E> {
    ghost was_notified = { λ _ _. ⊤ };

    fn enter(&mut self, stage: Stage<'_>) {
        if let Some(watch) = &mut self.watch {
            watch.enter(self.clock, stage);
        }
        self.show_stage(stage);
    }

    fn count_networks(&mut self, networks: u32) {
        if let Some(watch) = &mut self.watch {
            watch.count_networks(networks);
        }
    }
}

impl<R: Clock, E: CountedWrite> MoveWatcher for Progress<'_, R, E> {
    fn begin(&mut self, stage: MoveStage) {
        self.show_state(state_of(stage));
    }
}
