//! Entries of a table that move to its front, in their order: the table of functions before a step
//! becomes that after it in place. A latch mostly stays in a step if those beside it do. So marks
//! of latches are looked at in blocks, and a block whose marks are all alike costs no more than a
//! few of them.
ghost use Rattle.std.specs.Prelude.{ℕ, Bool, ◌≡◌, ◌+◌, ◌-◌, ◌≤◌, length};
ghost use Rattle.std.specs.List.{CopiedTo, SameBelow, SameFrom};
ghost use Rattle.aig_graph.specs.Closed.{IsClosedSet};
ghost use Rattle.aig_graph.specs.Graph.{first_latch, variables_end};
ghost use Rattle.aig_graph.specs.Move.{move_of};
ghost use Rattle.rebuild.specs.Entries.{by_variable};
ghost use Rattle.rebuild.specs.Moved.{is_latched};
ghost use Rattle.aig_graph.specs.Marking.{AreAllMarks};
ghost use Rattle.map_circuits.specs.Gathering.{GathersOn, IsGathered};

use aig_graph::{Circuit, ClosedSet, Keep, Lit};

/// How many marks are looked at at once.
const BLOCK: usize = 64;

/// Moves the entries from one place up to another to a place that isn't after theirs.
fn move_run(entries: &mut [Lit], from: usize, to: usize, kept: usize)
    requires before { kept ≤ from }
    requires ordered { from ≤ to }
    requires within { to ≤ length entries.old }
    ensures long { length entries.new ≡ length entries.old }
    ensures moved { CopiedTo entries.old entries.new from kept (to - from) }
    ensures below { SameBelow entries.old entries.new kept }
    ensures above { SameFrom entries.old entries.new to }
{
    if kept < from {
        entries.copy_within(from..to, kept);
    }
}

/// Moves the marked entries from `from` up to `to`, one by one, behind the `kept` entries that have
/// moved. Returns the number of entries that have then moved.
fn gather_each(entries: &mut [Lit], marks: &[bool], from: usize, to: usize, kept: usize) -> usize
    requires before { kept ≤ from }
    requires ordered { from ≤ to }
    requires within { to ≤ length marks.now }
    requires entries { length marks.now ≤ length entries.old }
    ensures few { result ≤ to }
    ensures gathered { GathersOn from to marks.now entries.old entries.new kept result }
{
    let mut after = kept;
    for k in from..to {
        if marks[k] {
            entries[after] = entries[k];
            after += 1;
        }
    }
    after
}

/// Moves the marked entries as [`gather_each`] does, but in one step if all or none are marked.
fn gather_block(entries: &mut [Lit], marks: &[bool], from: usize, to: usize, kept: usize) -> usize
    requires before { kept ≤ from }
    requires ordered { from ≤ to }
    requires within { to ≤ length marks.now }
    requires entries { length marks.now ≤ length entries.old }
    ensures few { result ≤ to }
    ensures gathered { GathersOn from to marks.now entries.old entries.new kept result }
{
    let block = &marks[from..to];
    if !block.contains(&true) {
        kept
    } else if !block.contains(&false) {
        move_run(entries, from, to, kept);
        kept + (to - from)
    } else {
        gather_each(entries, marks, from, to, kept)
    }
}

/// Moves the marked ones of the first entries to the front, and returns their number. Both tables
/// begin with one variable.
pub(crate) fn gather_marked(entries: &mut [Lit], marks: &[bool], count: usize) -> usize
    requires marks { count ≤ length marks.now }
    requires entries { length marks.now ≤ length entries.old }
    ensures few { result ≤ count }
    ensures gathered { (first : ℕ) (p : ℕ → Bool) → AreAllMarks first marks.now p →
        IsGathered first p (first + count) entries.old entries.new result }
{
    let mut from = 0;
    let mut kept = 0;
    while from < count {
        let to = from + (count - from).min(BLOCK);
        kept = gather_block(entries, marks, from, to, kept);
        from = to;
    }
    kept
}

/// Moves the entries of the variables that have a latch after a move to the front, by the marks of
/// these. Returns their number. Of the gates it looks at the members of the set alone; many of
/// these are marked, here and there.
pub(crate) fn gather_latched(
    entries: &mut [Lit],
    circuit: &Circuit,
    set: &ClosedSet,
    keep: &Keep,
    marks: &[bool],
) -> usize
    requires closed { IsClosedSet circuit.now.aig keep.now set.now }
    requires marked { marks.now
        ≡ by_variable circuit.now.aig (is_latched (move_of circuit.now keep.now set.now)) }
    requires long { first_latch circuit.now.aig + length entries.old
        ≡ variables_end circuit.now.aig }
    ensures { IsGathered (first_latch circuit.now.aig)
        (is_latched (move_of circuit.now keep.now set.now)) (variables_end circuit.now.aig)
        entries.old entries.new result }
{
    let _keep = keep;
    let aig = circuit.aig();
    let first = aig.first_latch();
    let mut kept = gather_marked(entries, marks, aig.latches().len());
    for var in set.vars() {
        let place = (*var - first) as usize;
        if marks[place] {
            entries[kept] = entries[place];
            kept += 1;
        }
    }
    kept
}
