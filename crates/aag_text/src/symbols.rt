ghost use Rattle.std.specs.Prelude.{◌≡◌};
ghost use Rattle.counted_io.specs.Buffered.{Puts};
ghost use Rattle.file_words.specs.Text.{all_symbols, symbol_line, symbol_lines};

use aig_graph::{Symbol, Symbols};
use counted_io::{Buffered, CountedWrite};

/// Puts the letter, the position, a space, the name and the newline.
fn put_symbol<W: CountedWrite>(out: &mut Buffered<'_, W>, letter: u8, symbol: &Symbol)
    ensures { Puts W.output out.old out.new (symbol_line letter symbol.now) }
{
    out.put_byte(letter);
    out.put_number(u64::from(symbol.position));
    out.put_byte(b' ');
    out.put(symbol.name.as_slice());
    out.put_byte(b'\n');
}

/// Puts a line for each symbol of the kind that the letter stands for.
fn put_kind<W: CountedWrite>(out: &mut Buffered<'_, W>, letter: u8, symbols: &[Symbol])
    ensures { Puts W.output out.old out.new (symbol_lines letter symbols.now) }
{
    for symbol in symbols {
        put_symbol(out, letter, symbol);
    }
}

/// Puts the symbols of all kinds: inputs, latches, outputs, bad states, constraints, justice,
/// fairness.
pub fn put_symbols<W: CountedWrite>(out: &mut Buffered<'_, W>, symbols: &Symbols)
    ensures { Puts W.output out.old out.new (all_symbols symbols.now) }
{
    put_kind(out, b'i', symbols.inputs.as_slice());
    put_kind(out, b'l', symbols.latches.as_slice());
    put_kind(out, b'o', symbols.outputs.as_slice());
    put_kind(out, b'b', symbols.bad.as_slice());
    put_kind(out, b'c', symbols.constraints.as_slice());
    put_kind(out, b'j', symbols.justice.as_slice());
    put_kind(out, b'f', symbols.fairness.as_slice());
}
