//! Plans: which holds and masks are taken off. They are tried one after another.

use hold_drafts::Way;

/// The number of plans.
pub const PLANS: u32 = 7;

/// Which holds and masks are taken off.
#[derive(Clone, Copy)]
pub struct Plan {
    pub way: Way,
    pub masks: bool,
}

/// Returns a plan. Each opens in another way: with each way of holds, masks are taken off by the
/// first plan or by the second one. If all latches are plain, they are all that is taken off.
pub fn plan_of(place: u32, masks_first: bool) -> Plan {
    let way = match place / 2 {
        0 => Way::Pairs,
        1 => Way::Eighths,
        2 => Way::Outer,
        _ => Way::Plain,
    };
    let is_first = place & 1 == 0;
    Plan {
        way,
        masks: way == Way::Plain || is_first == masks_first,
    }
}
