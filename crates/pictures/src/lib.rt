//! Pictures of circuits, as text in DOT, the language of Graphviz.
//! The text goes through a buffer, line by line, and takes no memory.
#![tactic(auto)]

mod centre;
mod dot;
mod graph;
mod label;
mod look;
mod middle;
mod named;
mod names;
mod near;
mod node;
mod places;
mod properties;
mod view;

pub use centre::has_node;
pub use dot::write_dot;
pub use look::View;
