//! What a circuit is whose registers with an enable or a reset were moved: it has the streams of
//! the circuit before, and fewer latches. A map turns the states of that circuit into its own, and
//! held latches are where they were. All of that is asked of the circuit and the map once they are
//! there, by checks that are proved. There is nothing here of enables or of resets: who drafts a
//! circuit may be wrong.
#![tactic(auto)]

mod held;
mod judging;
mod names;

pub use judging::is_moved_on;
pub use names::has_other_latches;
