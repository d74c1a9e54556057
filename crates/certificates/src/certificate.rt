use crate::routes::Routes;
use aig_graph::Sequence;

/// A set of gates, the claimed size of its border, and routes that are to show that no closed set
/// has a smaller one. Its maker may put in anything: `check` judges it.
#[derive(Drop)]
pub struct Certificate {
    /// The size of the set's border, as it is stated.
    pub count: u32,
    /// The variables of the gates.
    pub gates: Sequence<u32>,
    /// The routes that are said to show that the set is least.
    pub routes: Routes,
}
