/// The least set that a frame takes: there is one that holds all others, and one that lies in all
/// others.
#[derive(Clone, Copy, Debug, PartialEq, Eq)]
pub enum Choice {
    Greatest,
    Smallest,
}
