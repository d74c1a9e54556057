//! The blocks of a part. The line that begins a block says the number of lines to come; room is
//! taken as they come. If parts list merged latches, a line of their number begins another part.
ghost use Rattle.std.specs.Prelude.{ℕ, List, [], ◌≡◌, ◌<◌, ◌≤◌, ◌+◌, ◌∷◌, ◌++◌, is_some, codes, suc, length, IfOk, OnOk};
ghost use Rattle.certificates.specs.declared.certificate.Certificate.{Certificate as Given};
ghost use Rattle.certificate_files.specs.declared.fault.CertError.TheVariants.{NoMemory};
ghost use Rattle.file_words.specs.Answering.{Leads};
ghost use Rattle.certificate_files.specs.Files.{Blocks, Front, begins_with, ended_parts, nothing_read, settled, stood};
ghost use Rattle.certificate_files.specs.Steps.{block_with_gate, certificate_block, ended_blocks, lines_of_next, next_by, opened, read_rest, rest_after_parts, with_route};

use crate::fault::CertError;
use crate::forms::{FrameLine, frame_line, gate_line};
use crate::lines::next_line;
use crate::merged_lines::count_line;
use crate::words::route_line;
use aig_graph::Sequence;
use certificates::{Certificate, Routes};
use file_words::{Line, Lines};
use frame_net::Point;
use std::alloc::Global;

/// What a line begins if no block is open.
#[derive(Clone, Copy)]
pub(crate) enum Opening {
    /// A block.
    Block(FrameLine),
    /// Another part, with this number of merged latches.
    Part(u32),
}

/// The blocks of a part, and what follows them.
#[derive(Drop)]
pub(crate) struct PartBlocks {
    pub(crate) blocks: Sequence<Certificate>,
    /// The number of merged latches of the next part, if there is one.
    pub(crate) next: Option<u32>,
}

/// Returns true if the line begins as one that says how many latches are merged.
fn begins_merged(text: &[u8]) -> bool
    ensures { result ≡ begins_with (codes "merged ") text.now }
{
    text.starts_with(b"merged ")
}

/// Takes the line of a gate.
fn next_gate(lines: &mut Lines<'_>) -> Result<u32, CertError>
    ensures end { lines.new.end ≡ lines.old.end }
    ensures shorter { length lines.new.rest.now ≤ length lines.old.rest.now }
    ensures reads { (front : Front) (blocks : List Given) (block : Given) (gates routes : ℕ)
        → Leads NoMemory (λ v. read_rest lines.new.end lines.new.rest.now
        (Blocks front (settled blocks (block_with_gate block v) gates routes))) result
        (read_rest lines.old.end lines.old.rest.now
        (Blocks front (settled blocks block (suc gates) routes))) }
{
    let line = next_line(lines)?;
    gate_line(&line)
}

/// Takes the line of a route.
fn next_route(alloc: Global, lines: &mut Lines<'_>) -> Result<Sequence<Point>, CertError>
    ensures end { lines.new.end ≡ lines.old.end }
    ensures shorter { length lines.new.rest.now ≤ length lines.old.rest.now }
    ensures reads { (front : Front) (blocks : List Given) (block : Given) (routes : ℕ)
        → Leads NoMemory (λ points. read_rest lines.new.end lines.new.rest.now
        (Blocks front (settled blocks (with_route block points) 0 routes))) result
        (read_rest lines.old.end lines.old.rest.now
        (Blocks front (settled blocks block 0 (suc routes)))) }
{
    let line = next_line(lines)?;
    route_line(alloc, &line)
}

/// Reads the line as one that begins a block or, if parts list merged latches, another part.
fn opening_line(line: &Line<'_>, lists: bool) -> Result<Opening, CertError>
    ensures { (front : Front) (blocks : List Given) → is_some front.merged ≡ lists
        → stood line.now.at (Blocks front (ended_blocks blocks)) line.now.text.now
        ≡ next_by (opened front blocks) result }
{
    if lists && begins_merged(line.text) {
        let count = count_line(line)?;
        Ok(Opening::Part(count))
    } else {
        let frame = frame_line(line)?;
        Ok(Opening::Block(frame))
    }
}

/// Takes the line that begins a block or another part, if there is a line.
fn next_opening(lines: &mut Lines<'_>, lists: bool) -> Result<Opening, CertError>
    ensures end { lines.new.end ≡ lines.old.end }
    ensures shorter { OnOk result (length lines.new.rest.now < length lines.old.rest.now) }
    ensures reads { (front : Front) (blocks : List Given) → is_some front.merged ≡ lists
        → 0 < length lines.old.rest.now
        → Leads NoMemory (λ opening. read_rest lines.new.end lines.new.rest.now
        (opened front blocks opening)) result
        (read_rest lines.old.end lines.old.rest.now (Blocks front (ended_blocks blocks))) }
{
    let line = next_line(lines)?;
    opening_line(&line, lists)
}

/// Takes the lines of the gates. Room is taken as the lines come.
fn read_gates(alloc: Global, lines: &mut Lines<'_>, count: u32) -> Result<Sequence<u32>, CertError>
    ensures end { lines.new.end ≡ lines.old.end }
    ensures shorter { length lines.new.rest.now ≤ length lines.old.rest.now }
    ensures reads { (front : Front) (blocks : List Given) (stated routes : ℕ)
        → Leads NoMemory (λ gates. read_rest lines.new.end lines.new.rest.now
        (Blocks front (settled blocks (certificate_block stated gates []) 0 routes))) result
        (read_rest lines.old.end lines.old.rest.now
        (Blocks front (settled blocks (certificate_block stated [] []) count routes))) }
{
    let mut gates = Vec::new(alloc);
    for _ in 0..count {
        let gate = next_gate(lines)?;
        gates.push(gate)?;
    }
    Ok(Sequence::from_vec(gates))
}

/// Takes the line of a route, and adds that route.
fn add_route(alloc: Global, lines: &mut Lines<'_>, routes: &mut Routes) -> Result<(), CertError>
    ensures end { lines.new.end ≡ lines.old.end }
    ensures shorter { length lines.new.rest.now ≤ length lines.old.rest.now }
    ensures reads { (front : Front) (blocks : List Given) (stated left : ℕ) (gates : List ℕ)
        → Leads NoMemory (λ _. read_rest lines.new.end lines.new.rest.now
        (Blocks front (settled blocks (certificate_block stated gates routes.new) 0 left))) result
        (read_rest lines.old.end lines.old.rest.now
        (Blocks front (settled blocks (certificate_block stated gates routes.old) 0 (suc left)))) }
{
    let points = next_route(alloc, lines)?;
    let added = routes.push(points.as_slice());
    drop(points);
    match added {
        Ok(()) => Ok(()),
        Err(_) => Err(CertError::NoMemory),
    }
}

/// Takes the lines of the routes that are left of a block, and adds these routes.
fn add_routes(
    alloc: Global,
    lines: &mut Lines<'_>,
    count: u32,
    routes: &mut Routes,
) -> Result<(), CertError>
    ensures end { lines.new.end ≡ lines.old.end }
    ensures shorter { length lines.new.rest.now ≤ length lines.old.rest.now }
    ensures reads { (front : Front) (blocks : List Given) (stated : ℕ) (gates : List ℕ)
        → Leads NoMemory (λ _. read_rest lines.new.end lines.new.rest.now
        (Blocks front (ended_blocks (blocks ++ certificate_block stated gates routes.new ∷ []))))
        result (read_rest lines.old.end lines.old.rest.now
        (Blocks front (settled blocks (certificate_block stated gates routes.old) 0 count))) }
{
    for _ in 0..count {
        add_route(alloc, lines, routes)?;
    }
    Ok(())
}

/// Takes the lines of the routes. Room is taken as the lines come.
fn read_routes(alloc: Global, lines: &mut Lines<'_>, count: u32) -> Result<Routes, CertError>
    ensures end { lines.new.end ≡ lines.old.end }
    ensures shorter { length lines.new.rest.now ≤ length lines.old.rest.now }
    ensures reads { (front : Front) (blocks : List Given) (stated : ℕ) (gates : List ℕ)
        → Leads NoMemory (λ routes. read_rest lines.new.end lines.new.rest.now
        (Blocks front (ended_blocks (blocks ++ certificate_block stated gates routes ∷ []))))
        result (read_rest lines.old.end lines.old.rest.now
        (Blocks front (settled blocks (certificate_block stated gates []) 0 count))) }
{
    let mut routes = Routes::none(alloc);
    match add_routes(alloc, lines, count, &mut routes) {
        Ok(()) => Ok(routes),
        Err(fault) => {
            drop(routes);
            Err(fault)
        }
    }
}

/// Takes the lines of a block after its first one.
fn block_after(
    alloc: Global,
    lines: &mut Lines<'_>,
    frame: FrameLine,
) -> Result<Certificate, CertError>
    ensures end { lines.new.end ≡ lines.old.end }
    ensures shorter { length lines.new.rest.now ≤ length lines.old.rest.now }
    ensures reads { (front : Front) (blocks : List Given)
        → Leads NoMemory (λ block. read_rest lines.new.end lines.new.rest.now
        (Blocks front (ended_blocks (blocks ++ block ∷ [])))) result
        (read_rest lines.old.end lines.old.rest.now (Blocks front
        (settled blocks (certificate_block frame.count [] []) frame.gates frame.routes))) }
{
    let gates = read_gates(alloc, lines, frame.gates)?;
    let routes = read_routes(alloc, lines, frame.routes)?;
    Ok(Certificate {
        count: frame.count,
        gates,
        routes,
    })
}

/// Takes the blocks of a part, and the line that begins the next part if there is one. `lists` says
/// whether parts list merged latches.
pub(crate) fn read_blocks(
    alloc: Global,
    lines: &mut Lines<'_>,
    lists: bool,
) -> Result<PartBlocks, CertError>
    ensures end { lines.new.end ≡ lines.old.end }
    ensures shorter { IfOk result (λ part. length lines.new.rest.now + lines_of_next part.next
        ≤ length lines.old.rest.now) }
    ensures reads { (front : Front) → is_some front.merged ≡ lists
        → Leads NoMemory (λ part. rest_after_parts front.choice (ended_parts front part.blocks)
        part.next lines.new.end lines.new.rest.now) result
        (read_rest lines.old.end lines.old.rest.now (Blocks front nothing_read)) }
{
    let mut blocks = Vec::new(alloc);
    while !lines.is_at_end() {
        match next_opening(lines, lists)? {
            Opening::Block(frame) => {
                let block = block_after(alloc, lines, frame)?;
                blocks.push(block)?;
            }
            Opening::Part(count) => {
                return Ok(PartBlocks {
                    blocks: Sequence::from_vec(blocks),
                    next: Some(count),
                });
            }
        }
    }
    Ok(PartBlocks {
        blocks: Sequence::from_vec(blocks),
        next: None,
    })
}
