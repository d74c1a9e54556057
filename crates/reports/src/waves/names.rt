//! The names of waves. A file names what it likes, with any bytes, and one name may stand at
//! several places. But a reference of a dump has no blank, and viewers find a wave by its name. So
//! bytes that a reference can't have are written as underscores. Of waves with one name all but the
//! first say their places too.
ghost use Rattle.std.specs.Prelude.{ℕ, List, ◌≡◌, ◌++◌, ◌∷◌, ◌<◌, ◌==◌, not, decimal, map, length, get_or, take, bytes_eq, IfOk, OnOk};
ghost use Rattle.std.specs.List.{list_any};
ghost use Rattle.aig_graph.specs.Tables.{table};
ghost use Rattle.reports.specs.waves.Names.{apart_where, is_legal, justice_words, kind_names, legal_byte, legal_name, literal_word, own_names, property_words, told_apart, wave_names, with_properties, with_legal_name, with_symbols, default_name};

use aig_graph::{Circuit, Lit, NoMemory, Props, Sequence, Symbol, Symbols};
use itoa::Buffer;
use std::alloc::Global;
use std::collections::HashSet;

/// Returns true if a byte of a name may stand in a reference.
fn is_legal(byte: u8) -> bool
    ensures { result ≡ is_legal byte }
{
    32 < byte && byte < 127 && byte != b'$' && byte != b'@'
}

fn legal_byte(byte: u8) -> u8
    ensures { result ≡ legal_byte byte }
{
    if is_legal(byte) { byte } else { b'_' }
}

/// Returns a name as a reference may have it.
fn legal_name(alloc: Global, name: &[u8]) -> Result<Sequence<u8>, NoMemory>
    ensures { IfOk result (λ bytes. bytes ≡ legal_name name.now) }
{
    let mut bytes = Vec::with_capacity(alloc, name.len())?;
    for byte in name {
        bytes.push(legal_byte(*byte))?;
    }
    Ok(Sequence::from_vec(bytes))
}

/// Puts a number at the end, in decimal.
fn append_number(bytes: &mut Vec<u8>, number: usize) -> Result<(), NoMemory>
    ensures { OnOk result (bytes.new.items ≡ bytes.old.items ++ decimal number) }
{
    let mut buffer = Buffer::new();
    bytes.extend_from_slice(buffer.format(number as u64).as_bytes())?;
    Ok(())
}

/// Returns a letter and a number.
fn word_bytes(alloc: Global, letter: u8, position: usize) -> Result<Vec<u8>, NoMemory>
    ensures { IfOk result (λ bytes. bytes.items ≡ default_name letter position) }
{
    let mut bytes = Vec::new(alloc);
    bytes.push(letter)?;
    append_number(&mut bytes, position)?;
    Ok(bytes)
}

/// Returns the `count` words of a kind.
fn words(alloc: Global, letter: u8, count: usize) -> Result<Vec<Sequence<u8>>, NoMemory>
    ensures { IfOk result (λ words. words.items ≡ table 0 count (default_name letter)) }
{
    let mut words = Vec::with_capacity(alloc, count)?;
    for position in 0..count {
        words.push(Sequence::from_vec(word_bytes(alloc, letter, position)?))?;
    }
    Ok(words)
}

/// Puts the name of a symbol in its place.
fn set_name(alloc: Global, names: &mut [Sequence<u8>], symbol: &Symbol) -> Result<(), NoMemory>
    ensures { OnOk result (names.new ≡ with_legal_name names.old symbol.now) }
{
    let place = symbol.position as usize;
    if place < names.len() && !symbol.name.is_empty() {
        names[place] = legal_name(alloc, symbol.name.as_slice())?;
    }
    Ok(())
}

/// Puts the names of symbols in their places.
fn set_names(alloc: Global, names: &mut [Sequence<u8>], symbols: &[Symbol]) -> Result<(), NoMemory>
    ensures { OnOk result (names.new ≡ with_symbols names.old symbols.now) }
{
    for symbol in symbols {
        set_name(alloc, names, symbol)?;
    }
    Ok(())
}

/// Returns the names of a kind: those of its symbols, and words for the rest.
fn kind_names(
    alloc: Global,
    letter: u8,
    count: usize,
    symbols: &[Symbol],
) -> Result<Vec<Sequence<u8>>, NoMemory>
    ensures { IfOk result (λ names. names.items ≡ kind_names letter count symbols.now) }
{
    let mut names = words(alloc, letter, count)?;
    set_names(alloc, names.as_mut_slice(), symbols)?;
    Ok(names)
}

/// Puts the names of a kind at the end.
fn add_kind(
    alloc: Global,
    names: &mut Vec<Sequence<u8>>,
    letter: u8,
    count: usize,
    symbols: &Sequence<Symbol>,
) -> Result<(), NoMemory>
    ensures { OnOk result (names.new.items ≡ names.old.items ++ kind_names letter count symbols.now) }
{
    let mut kind = kind_names(alloc, letter, count, symbols.as_slice())?;
    names.append(&mut kind)?;
    Ok(())
}

/// Returns the word of a literal of a justice property.
fn literal_word(alloc: Global, property: usize, position: usize) -> Result<Sequence<u8>, NoMemory>
    ensures { IfOk result (λ bytes. bytes ≡ literal_word property position) }
{
    let mut bytes = word_bytes(alloc, b'j', property)?;
    bytes.push(b'.')?;
    append_number(&mut bytes, position)?;
    Ok(Sequence::from_vec(bytes))
}

/// Puts the words of the literals of a justice property at the end.
fn add_property(
    alloc: Global,
    names: &mut Vec<Sequence<u8>>,
    property: usize,
    literals: &[Lit],
) -> Result<(), NoMemory>
    ensures { OnOk result (names.new.items ≡ names.old.items
        ++ property_words property (length literals.now)) }
{
    for position in 0..literals.len() {
        names.push(literal_word(alloc, property, position)?)?;
    }
    Ok(())
}

fn add_justice(
    alloc: Global,
    names: &mut Vec<Sequence<u8>>,
    justice: &[Sequence<Lit>],
) -> Result<(), NoMemory>
    ensures { OnOk result (names.new.items ≡ names.old.items ++ justice_words justice.now) }
{
    for (k, literals) in justice.iter().enumerate() {
        add_property(alloc, names, k, literals.as_slice())?;
    }
    Ok(())
}

/// Puts the names of the properties at the end.
fn add_properties(
    alloc: Global,
    names: &mut Vec<Sequence<u8>>,
    props: &Props,
    symbols: &Symbols,
) -> Result<(), NoMemory>
    ensures { OnOk result (names.new.items ≡ with_properties names.old.items props.now symbols.now) }
{
    add_kind(alloc, names, b'o', props.outputs.len(), &symbols.outputs)?;
    add_kind(alloc, names, b'b', props.bad.len(), &symbols.bad)?;
    add_kind(
        alloc,
        names,
        b'c',
        props.constraints.len(),
        &symbols.constraints,
    )?;
    add_justice(alloc, names, props.justice.as_slice())?;
    add_kind(alloc, names, b'f', props.fairness.len(), &symbols.fairness)
}

/// Returns the names of all waves, several of which may be equal.
fn own_names(alloc: Global, circuit: &Circuit) -> Result<Vec<Sequence<u8>>, NoMemory>
    ensures { IfOk result (λ names. names.items ≡ own_names circuit.now) }
{
    let mut names = Vec::new(alloc);
    let symbols = circuit.symbols();
    let aig = circuit.aig();
    add_kind(
        alloc,
        &mut names,
        b'i',
        aig.inputs() as usize,
        &symbols.inputs,
    )?;
    add_kind(
        alloc,
        &mut names,
        b'l',
        aig.latches().len(),
        &symbols.latches,
    )?;
    add_properties(alloc, &mut names, circuit.props(), symbols)?;
    Ok(names)
}

/// Returns a name, with its place if it isn't new.
fn apart_where(
    alloc: Global,
    name: &[u8],
    is_new: bool,
    place: usize,
) -> Result<Sequence<u8>, NoMemory>
    ensures { IfOk result (λ bytes. bytes ≡ apart_where (not is_new) name.now place) }
{
    let mut bytes = Vec::from_slice(alloc, name)?;
    if !is_new {
        bytes.push(b'@')?;
        append_number(&mut bytes, place)?;
    }
    Ok(Sequence::from_vec(bytes))
}

/// Returns the names, told apart.
fn told_apart(alloc: Global, names: &[Sequence<u8>]) -> Result<Vec<Sequence<u8>>, NoMemory>
    ensures { IfOk result (λ told. told.items ≡ told_apart names.now) }
{
    let mut found: HashSet<&[u8]> = HashSet::new(alloc);
    let mut told = Vec::with_capacity(alloc, names.len())?;
    for (k, name) in names.iter().enumerate() {
        let is_new = found.insert(name.as_slice())?;
        told.push(apart_where(alloc, name.as_slice(), is_new, k)?)?;
    }
    Ok(told)
}

/// Returns the name of each wave of a circuit, told apart by places. Time and memory are linear in
/// the names.
///
/// # Errors
///
/// Memory is refused.
pub fn wave_names(alloc: Global, circuit: &Circuit) -> Result<Vec<Sequence<u8>>, NoMemory>
    ensures { IfOk result (λ names. names.items ≡ wave_names circuit.now) }
{
    let names = own_names(alloc, circuit)?;
    told_apart(alloc, names.as_slice())
}
