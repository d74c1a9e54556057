//! The looks of latches and gates. They begin at the first latch, and marks of what is drawn are
//! there only if something isn't. A header alone may announce 2^28 inputs, which take no room in a
//! picture of the whole circuit.
ghost use Rattle.std.specs.Prelude.{◌≡◌, None, Some, option_map};
ghost use Rattle.pictures.specs.Views.{drawn_in, look_in, plain};

use aig_graph::{Sequence, mark_at};

/// How the node of a latch or a gate looks.
#[derive(Clone, Copy)]
pub struct Look {
    /// A held latch.
    pub held: bool,
    /// No gate over which latches may move.
    pub fixed: bool,
    /// A gate of the set that is shown.
    pub inside: bool,
    /// A latch or a gate in the border of that set.
    pub border: bool,
}

/// What a picture shows: how each latch and gate looks, which variables are drawn, and which are in
/// the middle. `View::new` makes the view of a circuit.
#[derive(Drop)]
pub struct View {
    first: u32,
    looks: Vec<Look>,
    drawn: Option<Sequence<bool>>,
    centre: Option<Sequence<bool>>,
}

/// What is neither a latch nor a gate.
const PLAIN: Look = Look {
    held: false,
    fixed: true,
    inside: false,
    border: false,
};

impl View {
    /// Returns the view of these variables, with looks for those from the first latch on, and what
    /// is in the middle.
    pub(crate) fn of_marked(
        first: u32,
        looks: Vec<Look>,
        marks: Vec<bool>,
        centre: Vec<bool>,
    ) -> View
        ensures first { result.first ≡ first }
        ensures looks { result.looks.items ≡ looks.items }
        ensures drawn { result.drawn ≡ Some marks.items }
        ensures centre { result.centre ≡ Some centre.items }
    {
        View {
            first,
            looks,
            drawn: Some(Sequence::from_vec(marks)),
            centre: Some(Sequence::from_vec(centre)),
        }
    }

    /// Returns the view of all variables, with looks for those from the first latch on.
    pub(crate) fn of_looks(first: u32, looks: Vec<Look>) -> View
        ensures first { result.first ≡ first }
        ensures looks { result.looks.items ≡ looks.items }
        ensures drawn { result.drawn ≡ None }
        ensures centre { result.centre ≡ None }
    {
        View {
            first,
            looks,
            drawn: None,
            centre: None,
        }
    }

    #[tactic(auto, unfolding(crate::specs::Views::look_in))]
    pub(crate) fn look(&self, var: u32) -> Look
        ensures { result ≡ look_in self.now var }
    {
        if self.first <= var {
            self.looks
                .get((var - self.first) as usize)
                .copied()
                .unwrap_or(PLAIN)
        } else {
            PLAIN
        }
    }

    #[tactic(auto, unfolding(crate::specs::Views::drawn_in))]
    pub(crate) fn draws(&self, var: u32) -> bool
        ensures { result ≡ drawn_in self.now var }
    {
        match &self.drawn {
            Some(marks) => mark_at(marks.as_slice(), 0, var),
            None => true,
        }
    }

    /// Returns the marks by variable of what is in the middle, if anything is.
    pub(crate) fn centre(&self) -> Option<&[bool]>
        ensures { option_map (λ marks. marks.now) result ≡ self.now.centre }
    {
        match &self.centre {
            Some(marks) => Some(marks.as_slice()),
            None => None,
        }
    }
}
