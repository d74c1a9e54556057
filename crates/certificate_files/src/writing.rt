//! A function for each part of the text, as the definition of the text has them. None of them can
//! fail: the buffer keeps the failure of a write, and `write_cert` reports it at the end.
ghost use Rattle.std.specs.Prelude.{◌≡◌};
ghost use Rattle.std.specs.List.{flat_map};
ghost use Rattle.counted_io.specs.Buffered.{Puts};
ghost use Rattle.counted_io.specs.Output.{Writes};
ghost use Rattle.certificate_files.specs.Texts.{sign_code, point_text, route_text, gate_text, frame_line_text, block_text, choice_text, merged_latch_text, merged_text, listed_text, part_text, version_text, first_line_text, file_text};

use crate::file::{CertFile, CertPart};
use crate::filling::Line;
use aig_graph::{Choice, Sequence};
use certificates::{Certificate, MergedLatch, Routes};
use counted_io::{Buffered, CountedWrite, WriteError};
use frame_net::Point;

fn sign(behind: bool) -> u8
    ensures { result ≡ sign_code behind }
{
    if behind { b'+' } else { b'-' }
}

fn put_point<W: CountedWrite>(out: &mut Buffered<'_, W>, point: &Point)
    ensures { Puts W.output out.old out.new (point_text point.now) }
{
    out.put_byte(b' ');
    out.put_number(u64::from(point.var));
    out.put_byte(sign(point.behind));
}

/// Puts the points, with a space before each.
fn put_points<W: CountedWrite>(out: &mut Buffered<'_, W>, points: &[Point])
    ensures { Puts W.output out.old out.new (flat_map point_text points.now) }
{
    for point in points {
        put_point(out, point);
    }
}

/// Puts the line of a route piece by piece.
fn put_long_route<W: CountedWrite>(out: &mut Buffered<'_, W>, points: &[Point])
    ensures { Puts W.output out.old out.new (route_text points.now) }
{
    out.put(b"r");
    put_points(out, points);
    out.put_byte(b'\n');
}

fn put_route<W: CountedWrite>(out: &mut Buffered<'_, W>, line: &mut Line, points: &[Point])
    ensures { Puts W.output out.old out.new (route_text points.now) }
{
    match line.route(points) {
        Some(text) => out.put(text),
        None => put_long_route(out, points),
    }
}

fn put_routes<W: CountedWrite>(out: &mut Buffered<'_, W>, line: &mut Line, routes: &Routes)
    ensures { Puts W.output out.old out.new (flat_map route_text routes.now) }
{
    for number in 0..routes.len() {
        put_route(out, line, routes.route(number));
    }
}

fn put_gates<W: CountedWrite>(out: &mut Buffered<'_, W>, line: &mut Line, gates: &[u32])
    ensures { Puts W.output out.old out.new (flat_map gate_text gates.now) }
{
    for gate in gates {
        out.put(line.gate(*gate));
    }
}

/// Puts the line that begins a block.
fn put_frame<W: CountedWrite>(out: &mut Buffered<'_, W>, block: &Certificate)
    ensures { Puts W.output out.old out.new (frame_line_text block.now) }
{
    let count = u64::from(block.count);
    let gates = block.gates.len() as u64;
    let routes = block.routes.len() as u64;
    out.put(b"frame ");
    out.put_line(&[count, gates, routes]);
}

fn put_block<W: CountedWrite>(out: &mut Buffered<'_, W>, line: &mut Line, block: &Certificate)
    ensures { Puts W.output out.old out.new (block_text block.now) }
{
    put_frame(out, block);
    put_gates(out, line, block.gates.as_slice());
    put_routes(out, line, &block.routes);
}

fn put_blocks<W: CountedWrite>(out: &mut Buffered<'_, W>, line: &mut Line, blocks: &[Certificate])
    ensures { Puts W.output out.old out.new (flat_map block_text blocks.now) }
{
    for block in blocks {
        put_block(out, line, block);
    }
}

fn put_choice<W: CountedWrite>(out: &mut Buffered<'_, W>, choice: &Choice)
    ensures { Puts W.output out.old out.new (choice_text choice.now) }
{
    match choice {
        Choice::Greatest => out.put(b"choice greatest\n"),
        Choice::Smallest => out.put(b"choice smallest\n"),
    }
}

fn put_merged_latch<W: CountedWrite>(out: &mut Buffered<'_, W>, merged: &MergedLatch)
    ensures { Puts W.output out.old out.new (merged_latch_text merged.now) }
{
    let latch = u64::from(merged.latch);
    let reads = u64::from(merged.reads.code());
    out.put(b"m ");
    out.put_line(&[latch, reads]);
}

fn put_merged_latches<W: CountedWrite>(out: &mut Buffered<'_, W>, merged: &[MergedLatch])
    ensures { Puts W.output out.old out.new (flat_map merged_latch_text merged.now) }
{
    for latch in merged {
        put_merged_latch(out, latch);
    }
}

/// Puts the number of merged latches, and then these.
fn put_merged<W: CountedWrite>(out: &mut Buffered<'_, W>, merged: &[MergedLatch])
    ensures { Puts W.output out.old out.new (merged_text merged.now) }
{
    let count = merged.len() as u64;
    out.put(b"merged ");
    out.put_line(&[count]);
    put_merged_latches(out, merged);
}

/// Puts the merged latches if there is a list of them.
fn put_listed<W: CountedWrite>(out: &mut Buffered<'_, W>, merged: &Option<Sequence<MergedLatch>>)
    ensures { Puts W.output out.old out.new (listed_text merged.now) }
{
    match merged {
        None => {}
        Some(merged) => put_merged(out, merged.as_slice()),
    }
}

fn put_part<W: CountedWrite>(out: &mut Buffered<'_, W>, line: &mut Line, part: &CertPart)
    ensures { Puts W.output out.old out.new (part_text part.now) }
{
    put_listed(out, &part.merged);
    put_blocks(out, line, part.blocks.as_slice());
}

fn put_parts<W: CountedWrite>(out: &mut Buffered<'_, W>, parts: &[CertPart])
    ensures { Puts W.output out.old out.new (flat_map part_text parts.now) }
{
    let mut line = Line::new();
    for part in parts {
        put_part(out, &mut line, part);
    }
}

/// Puts the line of the version, by whether a part lists merged latches.
fn put_version<W: CountedWrite>(out: &mut Buffered<'_, W>, merged: &Option<Sequence<MergedLatch>>)
    ensures { Puts W.output out.old out.new (version_text merged.now) }
{
    match merged {
        None => out.put(b"fretime-cert 2\n"),
        Some(_) => out.put(b"fretime-cert 3\n"),
    }
}

/// Puts the line of the version, by the first part.
fn put_first_line<W: CountedWrite>(out: &mut Buffered<'_, W>, parts: &[CertPart])
    ensures { Puts W.output out.old out.new (first_line_text parts.now) }
{
    match parts.first() {
        None => put_version(out, &None),
        Some(part) => put_version(out, &part.merged),
    }
}

/// Puts the whole text.
fn put_file<W: CountedWrite>(out: &mut Buffered<'_, W>, file: &CertFile)
    ensures { Puts W.output out.old out.new (file_text file.now) }
{
    put_first_line(out, file.parts.as_slice());
    put_choice(out, &file.choice);
    put_parts(out, file.parts.as_slice());
}

/// Writes the certificates: the third version if the first part lists merged latches, else the
/// second. Both name the choice.
///
/// Takes no memory, and calls the writer about once for each 8 KiB of text. The text is read again
/// as these certificates if no route is empty and no number or length is above 2^28 - 1. For that a
/// part without a list of merged latches has to be the only one (`round_trip_law`).
///
/// # Errors
///
/// `Device` if a write failed: a beginning of the text was written then, and the writer isn't
/// called again.
pub fn write_cert<W: CountedWrite>(file: &CertFile, writer: &mut W) -> Result<(), WriteError>
    ensures { Writes (W.output writer.old) (W.output writer.new) result (file_text file.now) }
{
    let mut out = Buffered::new(writer);
    put_file(&mut out, file);
    out.flush()
}
