//! Of a gate only the gates that it reads count for the order. One that both fan-ins read is read
//! once: otherwise the gate would be met twice among its readers.
ghost use Rattle.std.specs.Prelude.{◌≡◌, ◌<◌, ◌↔◌, false, length, IsTrue, IfSome};
ghost use Rattle.ascii_file.specs.order.Order.{is_met};
ghost use Rattle.ascii_file.specs.order.Ready.{mark_of};

/// The gates that a gate reads: for each of its two fan-ins that is a gate, that gate's place in
/// the file, counted from 0. An input, a latch or the constant gives `None`.
#[derive(Clone, Copy)]
pub struct Reads {
    pub first: Option<u32>,
    pub second: Option<u32>,
}

/// Which of the two fan-ins.
#[derive(Clone, Copy)]
pub(crate) enum Side {
    First,
    Second,
}

/// Returns true if a fan-in is no gate, or one before this place.
fn is_before(fan_in: Option<u32>, place: usize) -> bool
    ensures { IsTrue result ↔ IfSome fan_in (λ g. g < place) }
{
    match fan_in {
        Some(read) => (read as usize) < place,
        None => true,
    }
}

/// Returns true if a fan-in is no gate, or a marked one.
fn is_marked(marks: &[bool], fan_in: Option<u32>) -> bool
    requires { IfSome fan_in (λ g. g < length marks.now) }
    ensures { result ≡ is_met (mark_of marks.now) fan_in }
{
    match fan_in {
        Some(read) => marks[read as usize],
        None => true,
    }
}

impl Reads {
    ghost use Rattle.ascii_file.specs.order.Readers.{fan_in};
    ghost use Rattle.ascii_file.specs.order.Order.{ReadsBelow, are_met};

    /// Returns true if the gates that are read stand before this place.
    pub(crate) fn are_before(&self, place: usize) -> bool
        ensures { IsTrue result ↔ ReadsBelow place self.now }
    {
        is_before(self.first, place) && is_before(self.second, place)
    }

    /// Returns true if no gate is read.
    pub(crate) fn is_free(&self) -> bool
        ensures { result ≡ are_met (λ g. false) (Some self.now) }
    {
        self.first.is_none() && self.second.is_none()
    }

    /// Returns true if the gates that are read are all marked.
    pub(crate) fn are_marked(&self, marks: &[bool]) -> bool
        requires { ReadsBelow (length marks.now) self.now }
        ensures { result ≡ are_met (mark_of marks.now) (Some self.now) }
    {
        is_marked(marks, self.first) && is_marked(marks, self.second)
    }

    /// Returns the gate that is read by this fan-in. The second fan-in gives none if the first one
    /// reads that gate.
    pub(crate) fn by(&self, side: Side) -> Option<u32>
        ensures { result ≡ fan_in side self.now }
    {
        match side {
            Side::First => self.first,
            Side::Second => {
                if self.second == self.first {
                    None
                } else {
                    self.second
                }
            }
        }
    }
}
