//! How two circuits and a map of states go together. Each command that makes something of them asks
//! this first, in one order, so all name one reason.
ghost use Rattle.map_commands.specs.Fitting.{IsFitOf};

use aig_graph::{Circuit, have_same_shape};
use map_checks::{are_fitting, is_map};

/// How circuits and a map go together.
pub(crate) enum Fit {
    /// The circuits have one shape, and the map has their latches.
    Fits,
    /// The circuits differ in their inputs or properties.
    ShapesDiffer,
    /// The map isn't one, or it hasn't the latches of these circuits.
    NotAMap,
}

/// Tells how a map from the first circuit to the second goes with them. That it isn't a map is
/// found first, then that the circuits have no shape in common.
pub(crate) fn fit_of(first: &Circuit, second: &Circuit, map: &Circuit) -> Fit
    ensures { IsFitOf first.now second.now map.now result }
{
    if !is_map(map) {
        return Fit::NotAMap;
    }
    if !have_same_shape(first, second) {
        return Fit::ShapesDiffer;
    }
    if are_fitting(first, second, map) {
        Fit::Fits
    } else {
        Fit::NotAMap
    }
}
