//! Takes the time of the parts of a run, and keeps how many sets networks found.
ghost use Rattle.std.specs.Prelude.{◌≡◌, ◌+◌, ◌-◌, ◌^◌, [], true, false, IfSome, min};
ghost use Rattle.std.specs.Duration.{as_nanos};
ghost use Rattle.command_endings.specs.progress.Laps.{IsEnded, IsStopped, microseconds_of, part_of};
ghost use Rattle.command_endings.specs.declared.progress.laps.Part.TheVariants.{Reading};

use crate::progress::laps::{Lap, Part, times_of};
use frame_runs::Stage;
use json_reports::Times;
use std::alloc::Global;
use std::time::{Clock, Duration, Instant};

/// Returns whole microseconds, `u64::MAX` at most.
fn microseconds(passed: Duration) -> u64
    ensures { result ≡ microseconds_of (as_nanos passed) }
{
    passed.as_micros().min(u128::from(u64::MAX)) as u64
}

/// Takes the time of each part of a run. If the clock can't be read, or memory is refused, there
/// are no times in the end.
#[derive(Drop)]
pub(crate) struct Stopwatch {
    alloc: Global,
    part: Part,
    since: Instant,
    laps: Vec<Lap>,
    networks: u32,
    has_failed: bool,
}

impl Stopwatch {
    /// Begins with reading.
    pub(crate) fn start<R: Clock>(clock: &R, alloc: Global) -> Option<Stopwatch>
        ensures part { IfSome result (λ watch. watch.part ≡ Reading) }
        ensures laps { IfSome result (λ watch. watch.laps.items ≡ []) }
        ensures has_failed { IfSome result (λ watch. watch.has_failed ≡ false) }
    {
        let since = Instant::now(clock).ok()?;
        Some(Stopwatch {
            alloc,
            part: Part::Reading,
            since,
            laps: Vec::new(alloc),
            networks: 0,
            has_failed: false,
        })
    }

    /// Ends the part that goes on.
    fn end_part<R: Clock>(&mut self, clock: &R)
        ensures ended { IsEnded self.old self.new }
        ensures part { self.new.part ≡ self.old.part }
        ensures failed { self.old.has_failed ≡ true → self.new.has_failed ≡ true }
    {
        let Ok(now) = Instant::now(clock) else {
            self.has_failed = true;
            return;
        };
        let lap = Lap {
            part: self.part,
            microseconds: microseconds(now.duration_since(self.since)),
        };
        self.since = now;
        match self.laps.push(lap) {
            Ok(()) => {}
            Err(_) => self.has_failed = true,
        }
    }

    /// Begins a stage.
    pub(crate) fn enter<R: Clock>(&mut self, clock: &R, stage: Stage<'_>)
        ensures ended { IsEnded self.old self.new }
        ensures part { self.new.part ≡ part_of stage.entry }
        ensures failed { self.old.has_failed ≡ true → self.new.has_failed ≡ true }
    {
        self.end_part(clock);
        self.part = Part::of(stage);
    }

    /// Adds how many sets networks found in a round.
    pub(crate) fn count_networks(&mut self, networks: u32)
        ensures networks { self.new.networks ≡ min (self.old.networks + networks) (2 ^ 32 - 1) }
        ensures laps { self.new.laps ≡ self.old.laps }
        ensures failed { self.new.has_failed ≡ self.old.has_failed }
    {
        self.networks = self.networks.saturating_add(networks);
    }

    /// Ends the last part.
    pub(crate) fn stop<R: Clock>(self, clock: &R) -> Option<Times>
        ensures { IfSome result (IsStopped self) }
    {
        let networks = self.networks;
        let mut watch = self;
        watch.end_part(clock);
        if watch.has_failed {
            return None;
        }
        match times_of(watch.alloc, watch.laps.as_slice(), networks) {
            Ok(times) => Some(times),
            Err(_) => None,
        }
    }
}
