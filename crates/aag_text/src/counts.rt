ghost use Rattle.std.specs.Prelude.{◌≡◌, ◌≤◌, length, take};
ghost use Rattle.counted_io.specs.Buffered.{Puts};
ghost use Rattle.counted_io.specs.Line.{line};
ghost use Rattle.file_words.specs.Text.{header_row, without_last_zeros};
ghost use Rattle.aag_text.specs.Header.{header_counts, header_text};

use aig_graph::Circuit;
use counted_io::{Buffered, CountedWrite};

/// How many numbers a header always has.
const LEAST: usize = 5;

/// How many counts a header can have.
const MOST: usize = 9;

/// Returns the greatest variable, and the number of items of each kind.
fn counts(circuit: &Circuit) -> [u64; MOST]
    ensures { result ≡ header_counts circuit.now }
{
    let aig = circuit.aig();
    let props = circuit.props();
    [
        aig.variables() as u64 - 1,
        u64::from(aig.inputs()),
        aig.latches().len() as u64,
        props.outputs.len() as u64,
        aig.gates().len() as u64,
        props.bad.len() as u64,
        props.constraints.len() as u64,
        props.justice.len() as u64,
        props.fairness.len() as u64,
    ]
}

/// Returns the number of counts up to the last one that isn't 0.
fn used(counts: &[u64]) -> usize
    ensures within { result ≤ length counts.now }
    ensures used { take result counts.now ≡ without_last_zeros counts.now }
{
    let mut used = 0;
    for (k, count) in counts.iter().enumerate() {
        if *count != 0 {
            used = k + 1;
        }
    }
    used
}

/// Puts what follows the letters of the first line, with its newline. The counts of bad states,
/// constraints, justice properties and fairness constraints stand up to the last one that isn't 0.
pub fn put_counts<W: CountedWrite>(out: &mut Buffered<'_, W>, circuit: &Circuit)
    ensures { Puts W.output out.old out.new (line (header_row circuit.now)) }
{
    let counts = counts(circuit);
    let len = LEAST + used(&counts[LEAST..]);
    out.put_line(&counts[..len]);
}

/// Puts the first line.
pub(crate) fn put_header<W: CountedWrite>(out: &mut Buffered<'_, W>, circuit: &Circuit)
    ensures { Puts W.output out.old out.new (header_text circuit.now) }
{
    out.put(b"aag ");
    put_counts(out, circuit);
}
