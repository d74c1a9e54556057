//! What a check of two circuits answers.
use map_checks::Obligation;

/// What a check of two circuits answers.
#[derive(Clone, Copy, Debug)]
pub enum PairAnswer {
    /// Each property of the second circuit has at each step the value of the first one's.
    Equal,
    /// The first property that isn't shown, of how many it is shown, and how many there are. The
    /// circuits may be equal all the same.
    NotShown(Obligation, usize, usize),
}
