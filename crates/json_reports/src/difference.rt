//! The first difference of two circuits.
ghost use Rattle.std.specs.Prelude.{◌≡◌, IfOk};
ghost use Rattle.serde_json.specs.View.{view};
ghost use Rattle.json_reports.specs.Differences.{difference_data, finding_data, place_data, shapes_data};

use crate::members::{Scalar, object_with, scalars_object};
use lane_sim::Place;
use serde_json::Value;
use std::alloc::{AllocError, Global};

fn place_object(alloc: Global, place: Place) -> Result<Value, AllocError>
    ensures { IfOk result (λ v. view v ≡ place_data place) }
{
    scalars_object(
        alloc,
        &[
            ("place", Scalar::Count(place.place as u64)),
            ("sequence", Scalar::Count(place.sequence as u64)),
            ("step", Scalar::Count(place.step as u64)),
        ],
    )
}

fn finding_object(
    alloc: Global,
    finding: &str,
    difference: Value,
    status: u8,
) -> Result<Value, AllocError>
    ensures { IfOk result (λ v. view v ≡ finding_data finding.now (view difference) status) }
{
    object_with(
        alloc,
        "difference",
        difference,
        &[
            ("command", Scalar::Text("same")),
            ("result", Scalar::Text(finding)),
            ("status", Scalar::Count(u64::from(status))),
        ],
    )
}

/// Returns what `same` prints of the first place at which two circuits differ, or that there is
/// none.
///
/// # Errors
///
/// Memory is refused.
pub fn difference_object(alloc: Global, found: Option<Place>) -> Result<Value, AllocError>
    ensures { IfOk result (λ v. view v ≡ difference_data found) }
{
    match found {
        Some(place) => {
            let difference = place_object(alloc, place)?;
            finding_object(alloc, "Differ", difference, 5)
        }
        None => finding_object(alloc, "Same", Value::Null, 0),
    }
}

/// Returns what `same` prints of two circuits that can't be compared, since they differ in their
/// numbers of inputs, free latches or properties.
///
/// # Errors
///
/// Memory is refused.
pub fn shapes_object(alloc: Global) -> Result<Value, AllocError>
    ensures { IfOk result (λ v. view v ≡ shapes_data) }
{
    finding_object(alloc, "ShapesDiffer", Value::Null, 1)
}
