//! The law of rows of arcs and functions on pairs of nodes.
//!
//! A node's row holds its arcs by rising head. So a walk over the row in order is a walk over all
//! nodes, in which those without an arc count for nothing. Thus the pushes of a row written in arc
//! order are the pushes of the definition, and so are sums and least labels.
ghost use Rattle.frame_net.specs.Rows.{RowLaw};

/// The pushes of a row, by arcs, are the pushes of its node, by pairs of nodes.
pub fn row_law()
    ensures { RowLaw }
{}
