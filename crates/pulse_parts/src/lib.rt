//! The flow of a network in parts, one for each worker of a pulse.
//!
//! The rows of the nodes are cut into parts that own their vectors. A worker gets its part by
//! value, writes only in it, and returns it. All else that it reads is lent to all workers: the
//! flow and the labels for reading, the pushes and the labels for delivery. So the events of a part
//! are those of its nodes, whatever the other workers do meanwhile.
//!
//! Contracts speak of the joined values of all parts, by arc and by node. Joined, the parts are the
//! state on pairs of nodes. Reading or delivering any ranges in any order leaves the state after
//! the pulse, once every node had its turn. Parts may be cut anew for other ranges, which changes
//! no state.
//!
//! Labels of the push-relabel method (Goldberg and Tarjan, 1988) are lower bounds of residual
//! distances to the sink. The label of a node whose excess can't reach the sink rises in small
//! steps up to the number of nodes. Exact labels, by a walk backward from the sink, give it that at
//! once, and lower no label.
#![tactic(auto)]

mod active;
mod carrying;
mod clearing;
mod copying;
mod delivering;
mod distance_laws;
mod gathering;
mod inflow;
mod joined;
mod labels;
mod laws;
mod node_list;
mod parting;
mod parts;
mod phases;
mod places;
mod reading;
mod starting;
mod walk;
mod walking;
mod whole;

pub use active::any_active_node;
pub use delivering::deliver_part;
pub use distance_laws::distance_law;
pub use gathering::is_active;
pub use joined::{excess_at, push_over, residual_at, walked_over};
pub use labels::{hold_labels, start_labels, turn};
pub use laws::{parting_law, range_laws, start_law};
pub use node_list::NodeList;
pub use parting::{border, parted_anew, push_parts};
pub use parts::{FlowPart, PushPart};
pub use phases::{deliver_each, deliver_every, read_each, read_every};
pub use places::part_of;
pub use reading::read_part;
pub use starting::start_parts;
pub use walk::exact_labels;
pub use walking::read_whole;
pub use whole::deliver_whole;
