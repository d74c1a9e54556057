use aig_graph::Sequence;

/// The inputs and latches that a witness circuit shares with the model. Each of the witness's has
/// the place, from 0, of that of the model. One of the witness's own has none.
#[derive(Drop)]
pub struct Sharing {
    pub inputs: Sequence<Option<u32>>,
    pub latches: Sequence<Option<u32>>,
}
