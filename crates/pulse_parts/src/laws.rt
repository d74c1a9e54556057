//! Laws that join the contracts of ranges, of parts cut anew and of the start.
ghost use Rattle.pulse_parts.specs.Marks.{RangeLaws};
ghost use Rattle.pulse_parts.specs.Start.{PartingLaw, StartLaw};

/// Rows that were all read are the pushes of every node, and a delivery begins with no node
/// delivered.
pub fn range_laws()
    ensures { RangeLaws }
{}

/// Parts at the start are the start of the flow: a preflow with valid labels.
pub fn start_law()
    ensures { StartLaw }
{}

/// Parts that were cut anew are the state of before.
pub fn parting_law()
    ensures { PartingLaw }
{}
