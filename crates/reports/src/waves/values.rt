//! The values of waves as text.
ghost use Rattle.std.specs.Prelude.{◌≡◌, ◌*◌, ◌/◌, ◌<◌, length};
ghost use Rattle.std.specs.List.{flat_map, range_with_len};
ghost use Rattle.counted_io.specs.Buffered.{Puts};
ghost use Rattle.lane_sim.specs.Blocks.{block_of};
ghost use Rattle.reports.specs.waves.Dumps.{code, value_at, value_line, values_of};
ghost use Rattle.reports.specs.waves.Moments.{trace_of, IsMoment};

use crate::waves::moment::{LANES, Moment};
use counted_io::{Buffered, CountedWrite};

/// Puts the code of a wave.
pub(crate) fn put_code<W: CountedWrite>(out: &mut Buffered<'_, W>, sequence: usize, place: usize)
    ensures { Puts W.output out.old out.new (code sequence place) }
{
    out.put_byte(b'v');
    out.put_number(sequence as u64);
    out.put_byte(b'.');
    out.put_number(place as u64);
}

/// Puts a wave's mark.
fn put_value_line<W: CountedWrite>(
    out: &mut Buffered<'_, W>,
    sequence: usize,
    place: usize,
    mark: u8,
)
    ensures { Puts W.output out.old out.new (value_line sequence place mark) }
{
    out.put_byte(mark);
    put_code(out, sequence, place);
    out.put_byte(b'\n');
}

/// Puts a wave's value, if it is written.
fn put_value<W: CountedWrite>(
    out: &mut Buffered<'_, W>,
    moment: &Moment<'_>,
    sequence: usize,
    place: usize,
)
    requires moment { IsMoment (sequence / 256) moment.now }
    requires sequence { sequence < length moment.now.sequences.now }
    ensures { Puts W.output out.old out.new
        (value_at (trace_of moment.now) moment.now.time sequence place) }
{
    if moment.is_written(sequence, place) {
        let mark = moment.mark(sequence, place);
        put_value_line(out, sequence, place, mark);
    }
}

/// Puts the values of a sequence that are written, of `places` waves.
fn put_sequence<W: CountedWrite>(
    out: &mut Buffered<'_, W>,
    moment: &Moment<'_>,
    places: usize,
    sequence: usize,
)
    requires moment { IsMoment (sequence / 256) moment.now }
    requires sequence { sequence < length moment.now.sequences.now }
    ensures { Puts W.output out.old out.new
        (values_of (trace_of moment.now) places moment.now.time sequence) }
{
    for place in 0..places {
        put_value(out, moment, sequence, place);
    }
}

/// Puts the values of a block's sequences that are written, of `places` waves.
pub(crate) fn put_block<W: CountedWrite>(
    out: &mut Buffered<'_, W>,
    moment: &Moment<'_>,
    places: usize,
    block: usize,
)
    requires moment { IsMoment block moment.now }
    requires block { 256 * block < length moment.now.sequences.now }
    ensures { Puts W.output out.old out.new
        (flat_map (values_of (trace_of moment.now) places moment.now.time)
        (range_with_len (256 * block) (length (block_of moment.now.sequences.now block)))) }
{
    let first = LANES * block;
    for lane in 0..LANES.min(moment.sequences.len() - first) {
        put_sequence(out, moment, places, first + lane);
    }
}
