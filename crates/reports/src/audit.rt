//! The lines of a judgement: for each part its merged latches and its confirmed blocks, then how
//! the last one ended. Then comes whether a file has the circuit that they end in. Nothing is
//! printed of blocks after a rejected one, or if a merged latch is refused: the circuits that they
//! speak of aren't known.
ghost use Rattle.std.specs.Prelude.{◌≡◌, None, Some, length, option_map, take};
ghost use Rattle.counted_io.specs.Buffered.{Puts};
ghost use Rattle.counted_io.specs.Output.{Writes};
ghost use Rattle.reports.specs.Audits.{audit_text, block_line, block_lines, confirmed_on, end_text, last_end, merged_text, objection_line, part_text, parts_text, refusal_line};
ghost use Rattle.certificate_audits.specs.Ends.{block_objection_name};

use crate::agreement::put_agreement;
use crate::judgement::Judgement;
use aig_graph::Sequence;
use certificate_audits::{Audit, BlockObjection, End};
use certificate_files::CertPart;
use certificates::{Certificate, MergedLatch};
use counted_io::{Buffered, CountedWrite, WriteError};

/// Puts the line of a confirmed block, whose number counts from 0.
fn put_block<W: CountedWrite>(out: &mut Buffered<'_, W>, number: u64, block: &Certificate)
    ensures { Puts W.output out.old out.new (block_line number block.now) }
{
    out.put(b"block ");
    out.put_number(number);
    out.put(b": yes, count ");
    out.put_number(u64::from(block.count));
    out.put_byte(b'\n');
}

/// Puts the lines of confirmed blocks, numbered from `first` on.
fn put_blocks<W: CountedWrite>(out: &mut Buffered<'_, W>, first: u64, blocks: &[Certificate])
    ensures { Puts W.output out.old out.new (block_lines first blocks.now) }
{
    let mut number = first;
    for block in blocks {
        put_block(out, number, block);
        number = number.saturating_add(1);
    }
}

fn put_name<W: CountedWrite>(out: &mut Buffered<'_, W>, objection: BlockObjection)
    ensures { Puts W.output out.old out.new (block_objection_name objection) }
{
    out.put(objection.name().as_bytes());
}

/// Puts the line of a block that isn't confirmed, whose number counts from 0.
fn put_objection<W: CountedWrite>(out: &mut Buffered<'_, W>, number: u64, objection: BlockObjection)
    ensures { Puts W.output out.old out.new (objection_line number objection) }
{
    out.put(b"block ");
    out.put_number(number);
    out.put(b": no, ");
    put_name(out, objection);
    out.put_byte(b'\n');
}

/// Puts the line of the merged latch with this variable, which is refused.
fn put_refusal<W: CountedWrite>(out: &mut Buffered<'_, W>, name: &[u8], latch: u32)
    ensures { Puts W.output out.old out.new (refusal_line name.now latch) }
{
    out.put(b"merged: no, ");
    out.put(name);
    out.put_byte(b' ');
    out.put_number(u64::from(latch));
    out.put_byte(b'\n');
}

/// Puts how an audit ended after `confirmed` confirmed blocks.
fn put_end<W: CountedWrite>(out: &mut Buffered<'_, W>, confirmed: u64, end: End)
    ensures { Puts W.output out.old out.new (end_text confirmed end) }
{
    match end {
        End::NoBlocks => out.put(b""),
        End::Certified => out.put(b"end certified\n"),
        End::Open => out.put(b"end open\n"),
        End::BlocksFollow => out.put(b"blocks follow the end\n"),
        End::Objected(objection) => put_objection(out, confirmed, objection),
        End::Misread(latch) => put_refusal(out, b"Misread", latch),
        End::NotShown(latch) => put_refusal(out, b"NotShown", latch),
    }
}

/// Puts the number of merged latches.
fn put_merged_latches<W: CountedWrite>(out: &mut Buffered<'_, W>, latches: u64)
    ensures { Puts W.output out.old out.new (merged_text (Some latches) None) }
{
    out.put(b"merged: yes, ");
    out.put_number(latches);
    out.put(b" latches\n");
}

/// Puts the line of merged latches, if the file has them and none is refused.
fn put_merged<W: CountedWrite>(out: &mut Buffered<'_, W>, merged: Option<u64>, refused: Option<u32>)
    ensures { Puts W.output out.old out.new (merged_text merged refused) }
{
    match (merged, refused) {
        (Some(latches), None) => put_merged_latches(out, latches),
        _ => out.put(b""),
    }
}

/// Returns the first `confirmed` blocks.
fn first_blocks(blocks: &[Certificate], confirmed: usize) -> &[Certificate]
    ensures { result.now ≡ take confirmed blocks.now }
{
    if confirmed < blocks.len() {
        &blocks[..confirmed]
    } else {
        blocks
    }
}

/// Returns how many merged latches a part lists, if it lists some.
fn listed(merged: &Option<Sequence<MergedLatch>>) -> Option<u64>
    ensures { result ≡ option_map length merged.now }
{
    match merged {
        Some(lines) => Some(lines.len() as u64),
        None => None,
    }
}

/// Puts what was judged of a part. Its first block has the number `first`.
fn put_part<W: CountedWrite>(out: &mut Buffered<'_, W>, first: u64, part: &CertPart, audit: Audit)
    ensures { Puts W.output out.old out.new (part_text first part.now audit) }
{
    put_merged(out, listed(&part.merged), audit.end.refused_latch());
    put_blocks(
        out,
        first,
        first_blocks(part.blocks.as_slice(), audit.confirmed),
    );
}

/// Puts what was judged of parts, and returns the number of confirmed blocks.
fn put_parts<W: CountedWrite>(
    out: &mut Buffered<'_, W>,
    parts: &[CertPart],
    audits: &[Audit],
) -> u64
    ensures text { Puts W.output out.old out.new (parts_text 0 parts.now audits.now) }
    ensures number { result ≡ confirmed_on 0 parts.now audits.now }
{
    let mut number = 0u64;
    for place in 0..parts.len().min(audits.len()) {
        let audit = audits[place];
        put_part(out, number, &parts[place], audit);
        number = number.saturating_add(audit.confirmed as u64);
    }
    number
}

/// Returns how the last part that was judged ended.
pub fn last_end(audits: &[Audit]) -> End
    ensures { result ≡ last_end audits.now }
{
    match audits.last() {
        Some(audit) => audit.end,
        None => End::NoBlocks,
    }
}

fn put_judgement<W: CountedWrite>(
    out: &mut Buffered<'_, W>,
    parts: &[CertPart],
    judgement: &Judgement,
)
    ensures { Puts W.output out.old out.new (audit_text parts.now judgement.now) }
{
    let audits = judgement.audits.as_slice();
    let confirmed = put_parts(out, parts, audits);
    put_end(out, confirmed, last_end(audits));
    put_agreement(out, judgement.agreement);
}

/// Prints a line for the merged latches of each part that was judged, if it lists them. Prints one
/// for each confirmed block, with its count. Blocks are numbered on from part to part. Prints how
/// the last part ended; if it has no block, nothing. If a file was compared with the circuit that
/// the parts end in, a line says the outcome.
///
/// Takes no memory.
///
/// # Errors
///
/// `Device` if a write failed: a beginning of the text was written then, and the writer isn't
/// called again.
pub fn print_audit<W: CountedWrite>(
    parts: &[CertPart],
    judgement: &Judgement,
    writer: &mut W,
) -> Result<(), WriteError>
    ensures { Writes (W.output writer.old) (W.output writer.new) result
        (audit_text parts.now judgement.now) }
{
    let mut out = Buffered::new(writer);
    put_judgement(&mut out, parts, judgement);
    out.flush()
}
