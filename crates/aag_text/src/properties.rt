ghost use Rattle.std.specs.Prelude.{◌≡◌, length, map};
ghost use Rattle.std.specs.List.{flat_map};
ghost use Rattle.counted_io.specs.Buffered.{Puts};
ghost use Rattle.file_words.specs.Text.{property_rows, single_rows};

use aig_graph::{Lit, Props, Sequence};
use counted_io::{Buffered, CountedWrite};

/// Puts a line for each literal.
fn put_literals<W: CountedWrite>(out: &mut Buffered<'_, W>, lits: &[Lit])
    ensures { Puts W.output out.old out.new (single_rows lits.now) }
{
    for lit in lits {
        out.put_line(&[u64::from(lit.code())]);
    }
}

/// Puts how many literals each justice property has.
fn put_justice_sizes<W: CountedWrite>(out: &mut Buffered<'_, W>, justice: &[Sequence<Lit>])
    ensures { Puts W.output out.old out.new (single_rows (map length justice.now)) }
{
    for lits in justice {
        out.put_line(&[lits.len() as u64]);
    }
}

/// Puts the literals of each justice property in turn.
fn put_justice<W: CountedWrite>(out: &mut Buffered<'_, W>, justice: &[Sequence<Lit>])
    ensures { Puts W.output out.old out.new (flat_map single_rows justice.now) }
{
    for lits in justice {
        put_literals(out, lits.as_slice());
    }
}

/// Puts the lines of all properties: outputs, bad states, constraints, sizes and literals of
/// justice, fairness.
pub fn put_properties<W: CountedWrite>(out: &mut Buffered<'_, W>, props: &Props)
    ensures { Puts W.output out.old out.new (property_rows props.now) }
{
    put_literals(out, props.outputs.as_slice());
    put_literals(out, props.bad.as_slice());
    put_literals(out, props.constraints.as_slice());
    put_justice_sizes(out, props.justice.as_slice());
    put_justice(out, props.justice.as_slice());
    put_literals(out, props.fairness.as_slice());
}
