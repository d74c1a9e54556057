//! The text of a map.
//!
//! The gates of a map stand as the bytes of the binary form, so that form gets them as they are,
//! without a copy. For the ASCII form they are read one by one. So neither form takes memory.
ghost use Rattle.std.specs.Prelude.{ℕ, ◌≡◌, ◌+◌, ◌<◌, ◌++◌, List};
ghost use Rattle.aig_graph.specs.declared.graph.Gate.{Gate};
ghost use Rattle.aig_graph.specs.declared.literal.TheConstants.{MAX_VARIABLES};
ghost use Rattle.aig_graph.specs.Graph.{IsGateAt, first_gate};
ghost use Rattle.aig_binary.specs.Spellings.{text_in};
ghost use Rattle.aig_binary.specs.Text.{gate_deltas, text_binary};
ghost use Rattle.counted_io.specs.Buffered.{Puts};
ghost use Rattle.counted_io.specs.Line.{line, numbered_lines};
ghost use Rattle.counted_io.specs.Output.{Writes};
ghost use Rattle.file_words.specs.Text.{all_symbols, gate_row, header_row, input_rows, numbered_rows, text};
ghost use Rattle.mapped_answers.specs.MapText.{BeginsWith, before_gates};

use aag_text::{put_properties, put_symbols};
use aig_binary::Spelling;
use counted_io::{Buffered, CountedWrite, WriteError, write_all};
use map_circuits::MapGates;
use retiming_maps::StateMap;

/// Puts the numbers of the header, with a newline. The count of constraints is there only if it
/// isn't 0.
fn put_counts<W: CountedWrite>(out: &mut Buffered<'_, W>, map: &StateMap)
    ensures { Puts W.output out.old out.new (line (header_row map.now)) }
{
    map.known();
    let inputs = u64::from(map.gates().inputs());
    let gates = u64::from(map.gates().count());
    let outputs = map.props().outputs.len() as u64;
    let constraints = map.props().constraints.len() as u64;
    if constraints == 0 {
        out.put_line(&[inputs + gates, inputs, 0, outputs, gates]);
    } else {
        out.put_line(&[inputs + gates, inputs, 0, outputs, gates, 0, constraints]);
    }
}

/// Puts a line for each input. Stops if a write failed.
fn put_inputs<W: CountedWrite>(out: &mut Buffered<'_, W>, inputs: u32)
    ensures { Puts W.output out.old out.new (input_rows inputs) }
{
    for input in 0..u64::from(inputs) {
        if out.has_failed() {
            return;
        }
        out.put_line(&[2 * (1 + input)]);
    }
}

/// Reads the number whose delta the bytes begin with. Returns it and the bytes after it.
fn read_delta(bytes: &[u8]) -> (u32, &[u8])
    requires { (more n : ℕ) × (tail : List ℕ) × BeginsWith more n tail bytes.now }
    ensures { (more n : ℕ) (tail : List ℕ) → BeginsWith more n tail bytes.now
        → (result.0 ≡ n) × (result.1.now ≡ tail) }
{
    match bytes.split_first() {
        None => (0, bytes),
        Some((byte, rest)) => {
            if *byte < 128 {
                return (u32::from(*byte), rest);
            }
            let (others, tail) = read_delta(rest);
            (u32::from(*byte) - 128 + 128 * others, tail)
        }
    }
}

/// Puts the line of the gate with variable `var`, whose deltas the bytes begin with. Returns the
/// bytes after them.
fn put_gate<'a, W: CountedWrite>(out: &mut Buffered<'_, W>, var: u32, bytes: &'a [u8]) -> &'a [u8]
    requires small { var < MAX_VARIABLES }
    requires begins { (gate : Gate) × (tail : List ℕ) × IsGateAt var gate
        × (bytes.now ≡ gate_deltas var gate ++ tail) }
    ensures { (gate : Gate) (tail : List ℕ) → IsGateAt var gate
        → bytes.now ≡ gate_deltas var gate ++ tail
        → Puts W.output out.old out.new (line (gate_row var gate)) × (result.now ≡ tail) }
{
    let (first, middle) = read_delta(bytes);
    let (second, rest) = read_delta(middle);
    let rhs0 = 2 * var - first;
    out.put_line(&[
        u64::from(2 * var),
        u64::from(rhs0),
        u64::from(rhs0 - second),
    ]);
    rest
}

/// Puts a line for each gate. Stops if a write failed.
fn put_gates<W: CountedWrite>(out: &mut Buffered<'_, W>, gates: &MapGates)
    ensures { Puts W.output out.old out.new
        (numbered_rows gate_row (first_gate gates.now) gates.now.gates) }
{
    gates.known();
    let first = 1 + gates.inputs();
    let mut rest = gates.deltas();
    for place in 0..gates.count() {
        if out.has_failed() {
            return;
        }
        rest = put_gate(out, first + place, rest);
    }
}

/// Puts the whole ASCII text, section by section.
fn put_ascii<W: CountedWrite>(out: &mut Buffered<'_, W>, map: &StateMap)
    ensures { Puts W.output out.old out.new (text map.now) }
{
    map.known();
    out.put(b"aag ");
    put_counts(out, map);
    put_inputs(out, map.gates().inputs());
    put_properties(out, map.props());
    put_gates(out, map.gates());
    put_symbols(out, map.symbols());
}

/// Puts the binary text up to the gates, section by section.
fn put_before_gates<W: CountedWrite>(out: &mut Buffered<'_, W>, map: &StateMap)
    ensures { Puts W.output out.old out.new (before_gates map.now) }
{
    map.known();
    out.put(b"aig ");
    put_counts(out, map);
    put_properties(out, map.props());
}

/// Writes the binary text up to the gates.
fn write_before_gates<W: CountedWrite>(map: &StateMap, writer: &mut W) -> Result<(), WriteError>
    ensures { Writes (W.output writer.old) (W.output writer.new) result (before_gates map.now) }
{
    let mut out = Buffered::new(writer);
    put_before_gates(&mut out, map);
    out.flush()
}

/// Writes the lines of the symbols.
fn write_symbols<W: CountedWrite>(map: &StateMap, writer: &mut W) -> Result<(), WriteError>
    ensures { Writes (W.output writer.old) (W.output writer.new) result
        (all_symbols map.now.symbols) }
{
    let mut out = Buffered::new(writer);
    put_symbols(&mut out, map.symbols());
    out.flush()
}

/// Writes the ASCII text.
fn write_ascii<W: CountedWrite>(map: &StateMap, writer: &mut W) -> Result<(), WriteError>
    ensures { Writes (W.output writer.old) (W.output writer.new) result (text map.now) }
{
    let mut out = Buffered::new(writer);
    put_ascii(&mut out, map);
    out.flush()
}

/// Writes the gates as they stand, and the symbols.
fn write_gates_on<W: CountedWrite>(map: &StateMap, writer: &mut W) -> Result<(), WriteError>
    ensures { Writes (W.output writer.old) (W.output writer.new) result
        (numbered_lines gate_deltas (first_gate map.now.aig) map.now.aig.gates
        ++ all_symbols map.now.symbols) }
{
    match write_all(writer, map.gates().deltas()) {
        Ok(()) => write_symbols(map, writer),
        Err(error) => Err(error),
    }
}

/// Writes the binary text.
fn write_binary<W: CountedWrite>(map: &StateMap, writer: &mut W) -> Result<(), WriteError>
    ensures { Writes (W.output writer.old) (W.output writer.new) result (text_binary map.now) }
{
    match write_before_gates(map, writer) {
        Ok(()) => write_gates_on(map, writer),
        Err(error) => Err(error),
    }
}

/// Writes the text of a map in `spelling`. Takes no memory.
///
/// Calls the writer about once for each 8 KiB of text. The gates of the binary form are given to it
/// together.
///
/// # Errors
///
/// `Device` if a write fails: a beginning of the text is written then, and the writer isn't called
/// again.
pub fn write_state_map<W: CountedWrite>(
    map: &StateMap,
    spelling: Spelling,
    writer: &mut W,
) -> Result<(), WriteError>
    ensures { Writes (W.output writer.old) (W.output writer.new) result
        (text_in spelling map.now) }
{
    match spelling {
        Spelling::Ascii => write_ascii(map, writer),
        Spelling::Binary => write_binary(map, writer),
    }
}
