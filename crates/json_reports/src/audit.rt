//! A judgement of certificates, and what came of comparing a file with the circuit that they end
//! in.
ghost use Rattle.std.specs.Prelude.{◌≡◌, ◌++◌, IfOk, OnOk, map, take};
ghost use Rattle.serde_json.specs.View.{members_view, view};
ghost use Rattle.certificate_audits.specs.Ends.{block_objection_name};
ghost use Rattle.json_reports.specs.Audits.{agreement_data, audit_data, audit_members, block_data, confirmed_blocks, latch_objection, merged_data, objection_at, with_merged, without_merged};
ghost use Rattle.json_reports.specs.Audits as names;
ghost use Rattle.json_reports.specs.Members.{array_of, or_null, scalar_data};
ghost use Rattle.serde_json.specs.Data.{no_members, object, string};

use crate::members::{Scalar, put_made, put_scalars, scalars_object, wide};
use certificate_audits::{Audit, End};
use certificate_files::CertPart;
use certificates::Certificate;
use reports::{Agreement, Judgement, last_end};
use serde_json::{Map, Value};
use std::alloc::{AllocError, Global};

fn end_name(end: End) -> &'static str
    ensures { result.now ≡ names.end_name end }
{
    match end {
        End::NoBlocks => "NoBlocks",
        End::Certified => "Certified",
        End::Open => "Open",
        End::BlocksFollow => "BlocksFollow",
        End::Objected(_) => "Objected",
        End::Misread(_) => "Misread",
        End::NotShown(_) => "NotShown",
    }
}

fn objection_value(alloc: Global, end: End) -> Result<Value, AllocError>
    ensures { IfOk result (λ v. view v
        ≡ or_null (λ o. string (block_objection_name o)) (objection_at end)) }
{
    match end {
        End::Objected(objection) => Value::try_from_str(alloc, objection.name()),
        _ => Ok(Value::Null),
    }
}

/// Returns the first `confirmed` blocks.
fn first_blocks(blocks: &[Certificate], confirmed: usize) -> &[Certificate]
    ensures { result.now ≡ take confirmed blocks.now }
{
    if confirmed < blocks.len() {
        &blocks[..confirmed]
    } else {
        blocks
    }
}

fn push_counts(list: &mut Vec<Value>, blocks: &[Certificate]) -> Result<(), AllocError>
    ensures { OnOk result (map view list.new.items
        ≡ map view list.old.items ++ map block_data blocks.now) }
{
    for block in blocks {
        serde_json::push(list, Value::from(block.count))?;
    }
    Ok(())
}

/// Returns the counts of the confirmed blocks of parts, in order.
fn counts_array(alloc: Global, parts: &[CertPart], audits: &[Audit]) -> Result<Value, AllocError>
    ensures { IfOk result (λ v. view v
        ≡ array_of block_data (confirmed_blocks parts.now audits.now)) }
{
    let mut list = Vec::new(alloc);
    for place in 0..parts.len().min(audits.len()) {
        let blocks = parts[place].blocks.as_slice();
        push_counts(&mut list, first_blocks(blocks, audits[place].confirmed))?;
    }
    Ok(Value::Array(list))
}

fn agreement_object(alloc: Global, agreement: Agreement) -> Result<Value, AllocError>
    ensures { IfOk result (λ v. view v ≡ agreement_data agreement) }
{
    let (offset, name) = match agreement {
        Agreement::Same => (None, "Same"),
        Agreement::DiffersAt(offset) => (Some(offset), "Differs"),
    };
    scalars_object(
        alloc,
        &[
            ("offset", Scalar::CountIfAny(offset)),
            ("result", Scalar::Text(name)),
        ],
    )
}

/// Returns the outcome of comparing a file, or null if none was compared.
fn agreement_value(alloc: Global, agreement: Option<Agreement>) -> Result<Value, AllocError>
    ensures { IfOk result (λ v. view v ≡ or_null agreement_data agreement) }
{
    match agreement {
        Some(agreement) => agreement_object(alloc, agreement),
        None => Ok(Value::Null),
    }
}

/// Returns why a merged latch is refused, or null if none is.
fn latch_objection(end: End) -> Scalar<'static>
    ensures { scalar_data result ≡ or_null string (latch_objection end) }
{
    match end {
        End::Misread(_) => Scalar::Text("Misread"),
        End::NotShown(_) => Scalar::Text("NotShown"),
        _ => Scalar::Null,
    }
}

fn merged_object(alloc: Global, latches: u64, end: End) -> Result<Value, AllocError>
    ensures { IfOk result (λ v. view v ≡ merged_data latches end) }
{
    scalars_object(
        alloc,
        &[
            ("latch", Scalar::CountIfAny(wide(end.refused_latch()))),
            ("latches", Scalar::Count(latches)),
            ("objection", latch_objection(end)),
        ],
    )
}

/// Puts what is judged of merged latches, if the file has them.
fn put_merged(
    members: &mut Map<String, Value>,
    alloc: Global,
    merged: Option<u64>,
    end: End,
) -> Result<(), AllocError>
    ensures { OnOk result (members_view members.new.entries
        ≡ with_merged merged end (members_view members.old.entries)) }
{
    match merged {
        None => Ok(()),
        Some(latches) => put_made(members, alloc, "merged", merged_object(alloc, latches, end)),
    }
}

/// Puts the members of a judgement, but for merged latches, into an object that has none.
fn put_audit(
    members: &mut Map<String, Value>,
    alloc: Global,
    parts: &[CertPart],
    judgement: &Judgement,
    status: u8,
) -> Result<(), AllocError>
    ensures { OnOk result (members_view members.old.entries ≡ no_members
        → members_view members.new.entries
        ≡ audit_members parts.now (without_merged judgement.now) status) }
{
    let audits = judgement.audits.as_slice();
    let end = last_end(audits);
    let agreement = judgement.agreement;
    put_made(members, alloc, "counts", counts_array(alloc, parts, audits))?;
    put_made(members, alloc, "objection", objection_value(alloc, end))?;
    put_made(members, alloc, "out", agreement_value(alloc, agreement))?;
    put_scalars(
        members,
        alloc,
        &[
            ("bound", Scalar::CountIfAny(wide(judgement.bound))),
            ("command", Scalar::Text("verify")),
            ("end", Scalar::Text(end_name(end))),
            ("status", Scalar::Count(u64::from(status))),
        ],
    )
}

/// Returns what `verify` prints of a judgement of a file's parts. It ends with this status.
///
/// # Errors
///
/// Memory is refused.
pub fn audit_object(
    alloc: Global,
    parts: &[CertPart],
    judgement: &Judgement,
    status: u8,
) -> Result<Value, AllocError>
    ensures { IfOk result (λ v. view v ≡ audit_data parts.now judgement.now status) }
{
    let mut members = Map::new(alloc);
    put_audit(&mut members, alloc, parts, judgement, status)?;
    let end = last_end(judgement.audits.as_slice());
    put_merged(&mut members, alloc, judgement.merged, end)?;
    Ok(Value::Object(members))
}
