//! Values by arc and by node over the joined parts, for readers that have no network.
ghost use Rattle.std.specs.Prelude.{◌≡◌, ◌-◌, ◌<◌, ◌^◌, min, length, slice_index};
ghost use Rattle.pulse_parts.specs.Parts.{cells_of, rows_walked, values_of};

use crate::parts::{FlowPart, PushPart};

/// Returns the residual of an arc.
pub fn residual_at(parts: &[FlowPart], arc: usize) -> u32
    requires { arc < length (cells_of parts.now).residuals }
    ensures { result ≡ slice_index (cells_of parts.now).residuals arc }
{
    // One worker has one part, so most arcs are found without a loop.
    if let Some(first) = parts.first() {
        if arc < first.residuals.len() {
            return first.residuals[arc];
        }
    }
    let mut place = arc;
    for part in parts {
        let size = part.residuals.len();
        if place < size {
            return part.residuals[place];
        }
        place -= size;
    }
    unreachable!()
}

/// Returns the excess of a node.
pub fn excess_at(parts: &[FlowPart], node: usize) -> u32
    requires { node < length (cells_of parts.now).excess }
    ensures { result ≡ slice_index (cells_of parts.now).excess node }
{
    let mut place = node;
    for part in parts {
        let size = part.excess.len();
        if place < size {
            return part.excess[place];
        }
        place -= size;
    }
    unreachable!()
}

/// Returns the push over an arc.
pub fn push_over(parts: &[PushPart], arc: usize) -> u32
    requires { arc < length (values_of parts.now) }
    ensures { result ≡ slice_index (values_of parts.now) arc }
{
    let mut place = arc;
    for part in parts {
        let size = part.values.len();
        if place < size {
            return part.values[place];
        }
        place -= size;
    }
    unreachable!()
}

/// Returns the number of rows that were walked for pushes, over all parts; `u32::MAX` stands for
/// all greater numbers.
pub fn walked_over(parts: &[PushPart]) -> u32
    ensures { result ≡ min (rows_walked parts.now) (2 ^ 32 - 1) }
{
    let mut walked: u32 = 0;
    for part in parts {
        walked = walked.saturating_add(part.walked);
    }
    walked
}
