//! Why a command failed.
ghost use Rattle.std.specs.Prelude.{◌≡◌, IfOk};
ghost use Rattle.serde_json.specs.View.{view};
ghost use Rattle.json_reports.specs.Refusals.{refusal_data};

use crate::fault::{Fault, fault_object};
use crate::members::{Scalar, object_with};
use serde_json::Value;
use std::alloc::{AllocError, Global};

/// Why a command failed, and how it ends.
#[derive(Clone, Copy)]
pub struct Refusal<'a> {
    /// The name of the command.
    pub command: &'a str,
    /// What is wrong.
    pub fault: Fault,
    /// Returns the name that is that of no latch.
    pub latch: Option<&'a str>,
    /// The path of the file, as it was given.
    pub path: Option<&'a str>,
    /// The exit status.
    pub status: u8,
}

/// Returns what a command prints that failed.
///
/// # Errors
///
/// Memory is refused.
pub fn refusal_object(alloc: Global, refusal: &Refusal<'_>) -> Result<Value, AllocError>
    ensures { IfOk result (λ v. view v ≡ refusal_data refusal.now) }
{
    let fault = fault_object(alloc, refusal.fault)?;
    object_with(
        alloc,
        "fault",
        fault,
        &[
            ("command", Scalar::Text(refusal.command)),
            ("latch", Scalar::TextIfAny(refusal.latch)),
            ("path", Scalar::TextIfAny(refusal.path)),
            ("status", Scalar::Count(u64::from(refusal.status))),
        ],
    )
}
