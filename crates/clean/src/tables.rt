//! The tables that a pass leaves to the next. If each pass asked for its own, the system would
//! clear those of a large circuit again, page by page.

use crate::kept::Links;
use crate::substitution::Substitution;
use std::alloc::Global;

/// The tables of a pass: the literal of each variable, and links of gates, whose values don't
/// matter after the pass.
#[derive(Drop)]
pub(crate) struct PassTables {
    pub(crate) literals: Substitution,
    pub(crate) links: Links,
}

impl PassTables {
    /// Returns empty tables. Takes no memory.
    pub(crate) fn none(alloc: Global) -> PassTables {
        PassTables {
            literals: Substitution::none(alloc),
            links: Links::none(alloc),
        }
    }
}
