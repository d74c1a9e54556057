//! Finds sets of gates over which latches move backward: from behind the gates to before them. A
//! set has only gates that its own gates and latches alone read, and its border takes fewer latches
//! than there are. The values of latches at step 0 are handed down the set, with one value of each
//! variable as far as that goes.
//!
//! The sets that are found are hints. No clause speaks of a set; a crate above judges the circuit
//! that is made by one as a whole.
#![tactic(auto)]

mod balancing;
mod border;
mod conflicts;
mod drafts;
mod flow;
mod guide;
mod justifying;
mod levels;
mod literals;
mod movables;
mod network;
mod pairs;
mod readers;
mod search;
mod starts;
mod tables;
mod units;
mod values;
mod wishes;

pub use border::{Bordered, border_of, is_closed};
pub use conflicts::freeze_losers;
pub use drafts::{Draft, DraftLatch, DraftReset, Pair};
pub use guide::guide_of;
pub use justifying::justify;
pub use levels::{freeze_long, levels_of};
pub use literals::Literal;
pub use movables::movable;
pub use network::least_set;
pub use pairs::{LARGEST_TABLE, table_size};
pub use starts::{Wish, starts_of, wish_of};
pub use tables::{count_marks, entry, has_mark, number, set_entry, set_mark};
pub use units::GateUnits;
pub use wishes::{Guide, Wishes, wishes_of};
