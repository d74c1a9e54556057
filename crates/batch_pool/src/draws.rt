//! One shared counter, and the drawers that draw from it.
ghost use Rattle.std.specs.Prelude.{◌≡◌, ◌+◌, ◌^◌, ◌<◌, ◌≤◌, ℕ, [], All, IfOk, IfSome, IfNone, length};
ghost use Rattle.batch_pool.specs.Rule.{plan};

use crate::rule::{Collect, Counter, Deal, Draw, Hand, Plan, Tally};
use aig_graph::NoMemory;
use atomic_table::{Seat, Table};
use std::alloc::Global;

/// A counter that several threads draw from. The numbers below `jobs` are the numbers of jobs.
#[derive(Drop)]
pub struct Draws {
    table: Table<(), Hand, Plan, Counter, Global>,
    jobs: u64,
    drawers: u32,
    ghost one_word: { table.shared.table_id.words ≡ 1 },
    ghost key: { table.shared.key ≡ plan jobs drawers },
    ghost few: { (jobs ≤ 2 ^ 62) × (0 < drawers) × (drawers ≤ 64) },
}

/// A seat at the counter: what draws numbers, one after another.
#[derive(Drop)]
pub struct Drawer {
    worker: u32,
    seat: Seat<(), Hand>,
    ghost no_slot: { seat.me.1 ≡ [] },
    ghost share: { seat.me.0.parts ≡ 1 },
}

impl Drawer {
    /// Returns its place among the drawers, from 0.
    pub fn worker(&self) -> u32
        ensures { result ≡ self.now.worker }
    {
        self.worker
    }
}

impl Draws {
    ghost use Rattle.batch_pool.specs.Drawing.{AreInPlace, HasDrawn, IsDrawerOf, IsGoing, IsDone, drawn, times_drawn, jobs_of, drawers_of};

    /// Returns a counter at 0, and its drawers, which have drawn nothing.
    ///
    /// # Errors
    ///
    /// Memory is refused.
    pub fn new(alloc: Global, jobs: u64, drawers: u32) -> Result<(Draws, Vec<Drawer>), NoMemory>
        requires few { (jobs ≤ 2 ^ 62) × (0 < drawers) × (drawers ≤ 64) }
        ensures plan { IfOk result (λ r. (jobs_of r.0 ≡ jobs) × (drawers_of r.0 ≡ drawers)) }
        ensures all { IfOk result (λ r. length r.1.items ≡ drawers) }
        ensures mine { IfOk result (λ r. All (λ d. IsDrawerOf r.0 d) r.1.items) }
        ensures fresh { IfOk result (λ r. All (λ d. drawn d ≡ []) r.1.items) }
        ensures places { IfOk result (λ r. AreInPlace r.1.items) }
    {
        let (table, mut seat) = Table::of_words(alloc, &[0], &Plan { jobs, drawers })?;
        let mut list = Vec::with_capacity(alloc, drawers as usize)?;
        for worker in 0..drawers {
            let share = table.shared.split_seat::<Deal>(&mut seat);
            list.push_reserved(Drawer {
                worker,
                seat: share,
            });
        }
        Ok((
            Draws {
                table,
                jobs,
                drawers,
            },
            list,
        ))
    }

    /// Draws the next number by the drawer's own seat, by one atomic step, and returns it if it is
    /// a job. `None` says that each job has been drawn, by this drawer or by another.
    pub fn draw(&self, drawer: &mut Drawer) -> Option<u64>
        requires mine { IsDrawerOf self.now drawer.old }
        requires going { IsGoing self.now drawer.old }
        ensures job { IfSome result (λ n. n < jobs_of self.now) }
        ensures some { IfSome result (HasDrawn drawer.old drawer.new) }
        ensures going { IfSome result (λ n. IsGoing self.now drawer.new) }
        ensures none { IfNone result ((n : ℕ) × (jobs_of self.now ≤ n)
            × HasDrawn drawer.old drawer.new n) }
        ensures done { IfNone result (IsDone self.now drawer.new) }
        ensures mine { IsDrawerOf self.now drawer.new }
        ensures worker { drawer.new.worker ≡ drawer.old.worker }
    {
        let number = self.table.shared.fetch_add::<Draw>(&mut drawer.seat, 0, 1);
        if number < self.jobs {
            Some(number)
        } else {
            None
        }
    }

    /// Takes all drawers back, in any order, each of which was told that no job is left. They drew
    /// each job once and left none out.
    pub fn gather(&self, drawers: Vec<Drawer>)
        requires all { length drawers.items ≡ drawers_of self.now }
        requires mine { All (λ d. IsDrawerOf self.now d) drawers.items }
        requires done { All (λ d. IsDone self.now d) drawers.items }
        ensures { (x : ℕ) → x < jobs_of self.now → times_drawn x drawers.items ≡ 1 }
    {
        let mut left = drawers;
        let Some(first) = left.pop() else { return };
        let Drawer {
            worker: _,
            mut seat,
        } = first;
        while let Some(next) = left.pop() {
            let Drawer {
                worker: _,
                seat: other,
            } = next;
            self.table.shared.join_seat::<Collect>(&mut seat, other);
        }
        self.table.shared.load::<Tally>(&mut seat, 0);
    }
}
