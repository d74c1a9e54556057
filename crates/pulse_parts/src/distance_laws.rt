//! The law of computed distances.
ghost use Rattle.pulse_parts.specs.Distances.{DistanceLaw};

/// The computed distances are the residual distances to the sink, and no others are.
pub fn distance_law()
    ensures { DistanceLaw }
{}
