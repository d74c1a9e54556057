//! The parts that own the rows of a worker's nodes.

use crate::node_list::NodeList;

/// The flow at the nodes from `first` up to `end`. It has the residuals of their arcs, from arc
/// `base` on, their excess, and their new labels (`next`). `active`, if it is complete, lists the
/// nodes that may be active; `spare` is room for the next list.
#[derive(Drop)]
pub struct FlowPart {
    pub worker: u32,
    pub first: u32,
    pub end: u32,
    pub base: usize,
    pub residuals: Vec<u32>,
    pub excess: Vec<u32>,
    pub next: Vec<u32>,
    pub active: NodeList,
    pub spare: NodeList,
}

/// The pushes over the arcs of the nodes from `first` up to `end`, whose rows begin with arc
/// `base`. `pushing`, if it is complete, lists the nodes whose row isn't all 0. `walked` counts the
/// rows that were walked for pushes, up to the greatest count of its type.
#[derive(Drop)]
pub struct PushPart {
    pub worker: u32,
    pub first: u32,
    pub end: u32,
    pub base: usize,
    pub values: Vec<u32>,
    pub pushing: NodeList,
    pub walked: u32,
}
