//! Latches of a circuit are moved backward: from behind gates to before them. Nobody has to believe
//! how it was found. What is found is a draft in numbers. The circuit and the map that are made of
//! it are looked at once they exist. The map may show by sharing gates that the circuit of before
//! is a retiming of the new one. If it does, and nothing else is amiss, the new one is the answer.
//! Otherwise the circuit itself is.
#![tactic(auto)]

mod retiming;

pub use backward_moves::{
    Drafted, FrameCounts, MoveOptions, MoveStage, MoveWatcher, Moves, Staying, draft_moves,
};
pub use retiming::{MovedBack, move_as_drafted, move_as_found, move_back};
