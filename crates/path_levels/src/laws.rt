ghost use Rattle.path_levels.specs.Bounded.{BoundedLaws};

/// The bounded circuit has the closed sets within the bound, and no others, with their borders. So
/// the set that is chosen in it is the one chosen among those.
pub fn bounded_law()
    ensures { BoundedLaws }
{}
