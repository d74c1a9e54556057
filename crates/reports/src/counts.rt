//! What a circuit has, in lines: a word and a number each.
ghost use Rattle.std.specs.Prelude.{◌≡◌};
ghost use Rattle.counted_io.specs.Buffered.{Puts};
ghost use Rattle.counted_io.specs.Output.{Writes};
ghost use Rattle.reports.specs.Counts.{count_line, counts_text, graph_counts, merge_counts, property_counts};

use crate::{Counts, Statistics};
use counted_io::{Buffered, CountedWrite, WriteError};
use merged_circuits::MergeCounts;

/// Puts a word, a space, a number and the newline.
fn put_count<W: CountedWrite>(out: &mut Buffered<'_, W>, word: &[u8], count: u64)
    ensures { Puts W.output out.old out.new (count_line word.now count) }
{
    out.put(word);
    out.put_byte(b' ');
    out.put_number(count);
    out.put_byte(b'\n');
}

fn put_graph_counts<W: CountedWrite>(out: &mut Buffered<'_, W>, counts: &Counts)
    ensures { Puts W.output out.old out.new (graph_counts counts.now) }
{
    put_count(out, b"inputs", counts.inputs);
    put_count(out, b"latches", counts.latches);
    put_count(out, b"free", counts.free);
    put_count(out, b"gates", counts.gates);
}

fn put_property_counts<W: CountedWrite>(out: &mut Buffered<'_, W>, counts: &Counts)
    ensures { Puts W.output out.old out.new (property_counts counts.now) }
{
    put_count(out, b"outputs", counts.outputs);
    put_count(out, b"bad", counts.bad);
    put_count(out, b"constraints", counts.constraints);
    put_count(out, b"justice", counts.justice);
    put_count(out, b"fairness", counts.fairness);
}

fn put_merge_counts<W: CountedWrite>(out: &mut Buffered<'_, W>, merged: Option<MergeCounts>)
    ensures { Puts W.output out.old out.new (merge_counts merged) }
{
    match merged {
        Some(counts) => {
            put_count(out, b"merged", counts.merged);
            put_count(out, b"constant", counts.constant);
        }
        None => {}
    }
}

fn put_counts<W: CountedWrite>(
    out: &mut Buffered<'_, W>,
    statistics: &Statistics,
    merged: Option<MergeCounts>,
)
    ensures { Puts W.output out.old out.new (counts_text statistics.now merged) }
{
    put_graph_counts(out, &statistics.counts);
    put_property_counts(out, &statistics.counts);
    put_count(out, b"passable", statistics.passable);
    put_merge_counts(out, merged);
}

/// Prints the lines of `stat`: inputs, latches, free latches, gates, properties of each kind and
/// passable gates. If they are given, merged latches follow, and the merged ones with a constant.
/// The other counts stand in the object of JSON alone.
///
/// # Errors
///
/// `Device` if a write failed: a beginning of the text was written then, and the writer isn't
/// called again.
pub fn print_counts<W: CountedWrite>(
    statistics: &Statistics,
    merged: Option<MergeCounts>,
    writer: &mut W,
) -> Result<(), WriteError>
    ensures { Writes (W.output writer.old) (W.output writer.new) result
        (counts_text statistics.now merged) }
{
    let mut out = Buffered::new(writer);
    put_counts(&mut out, statistics, merged);
    out.flush()
}
