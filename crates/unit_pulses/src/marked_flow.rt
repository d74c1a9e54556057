//! A flow of units and the marks that hold for it, as one value: whoever changes the flow drops the
//! marks.

use crate::extending::{Extension, extend};
use aig_graph::NoMemory;
use std::alloc::Global;
use std::mem;
use unit_flows::{GateFlow, NodeMarks, SpareTables};
use unit_starts::Region;

/// A flow at the gates of a region.
#[derive(Drop)]
pub(crate) struct MarkedFlow {
    flows: Vec<GateFlow>,
    /// The marks of nodes from which its units can come to the sink, if they were looked for.
    marks: Option<NodeMarks>,
}

impl MarkedFlow {
    pub fn new(flows: Vec<GateFlow>, marks: Option<NodeMarks>) -> MarkedFlow {
        MarkedFlow { flows, marks }
    }

    pub fn flows(&self) -> &[GateFlow] {
        self.flows.as_slice()
    }

    /// Lets units that wait go on, as [`extend`] does. Returns the number of units that come to the
    /// sink. A unit that moves leaves a way back, which isn't in the marks: then the marks are
    /// dropped, and the spare tables get their memory.
    pub fn extend(
        &mut self,
        alloc: Global,
        region: &Region,
        spare: &mut SpareTables,
    ) -> Result<usize, NoMemory> {
        let Extension { taken, brought } = extend(alloc, region, self.flows.as_mut_slice())?;
        if taken > 0 {
            if let Some(marks) = mem::replace(&mut self.marks, None) {
                spare.keep_marks(marks);
            }
        }
        Ok(brought)
    }

    /// Takes flow and marks apart, for a caller that changes the flow.
    pub fn into_parts(self) -> (Vec<GateFlow>, Option<NodeMarks>) {
        let MarkedFlow { flows, marks } = self;
        (flows, marks)
    }

    pub fn into_flows(self) -> Vec<GateFlow> {
        let MarkedFlow { flows, marks } = self;
        drop(marks);
        flows
    }
}
