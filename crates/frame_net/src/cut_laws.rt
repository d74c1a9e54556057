//! Cuts of a frame's network are closed sets. The flow that leaves a cut is at least the border of
//! its gates, with equality for some cut of each closed set. So a greatest least cut gives the
//! greatest least set (Hurst, Mishchenko and Brayton, 2007).
ghost use Rattle.frame_net.specs.Cuts.{CutsAreClosed, ClosedSetsAreCuts, GreatestCutIsGreatestSet};

/// The gates of a set of nodes that no arc of the unbounded capacity leaves are a closed set. Its
/// border is no larger than the number of arcs that leave.
pub fn cuts_are_closed()
    ensures { CutsAreClosed }
{}

/// Each closed set has such a set of nodes, for which the number of arcs that leave is that of the
/// variables of its border.
pub fn closed_sets_are_cuts()
    ensures { ClosedSetsAreCuts }
{}

/// The gates of the least cut that holds every least cut are the least set in which every least set
/// lies.
pub fn greatest_cut_is_greatest_set()
    ensures { GreatestCutIsGreatestSet }
{}
