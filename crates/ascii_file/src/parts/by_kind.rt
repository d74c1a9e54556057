//! Properties by kind. A file's sections of one form come as one list (outputs, bad states and
//! constraints; justice literals and fairness), and the header's numbers part it.
ghost use Rattle.std.specs.Prelude.{◌≡◌, ◌+◌, ◌<◌, ◌≤◌, ◌^◌, length, take, drop, All, IfOk};
ghost use Rattle.std.specs.List.{sum};
ghost use Rattle.ascii_file.specs.Raw.{safety_count};
ghost use Rattle.ascii_file.specs.Meaning.{props_of, split_by};

use crate::Header;
use aig_graph::{Lit, NoMemory, Props, Sequence};
use std::alloc::Global;

/// Returns the literals with these numbers.
fn literals(alloc: Global, codes: &[u32]) -> Result<Sequence<Lit>, NoMemory>
    requires { All (λ lit. lit < 2 ^ 29) codes.now }
    ensures { IfOk result (λ literals. literals ≡ codes.now) }
{
    let mut literals = Vec::with_capacity(alloc, codes.len())?;
    for code in codes {
        literals.push(Lit::new(*code / 2, *code % 2 == 1))?;
    }
    Ok(Sequence::from_vec(literals))
}

/// Returns the literals of justice properties of these sizes, one after the other.
fn justice(alloc: Global, sizes: &[u32], codes: &[u32]) -> Result<Sequence<Sequence<Lit>>, NoMemory>
    requires fit { sum sizes.now ≤ length codes.now }
    requires literals { All (λ lit. lit < 2 ^ 29) codes.now }
    ensures { IfOk result (λ properties. properties ≡ split_by sizes.now codes.now) }
{
    let mut properties = Vec::with_capacity(alloc, sizes.len())?;
    let mut rest = codes;
    for size in sizes {
        let (first, others) = rest.split_at(*size as usize);
        properties.push(literals(alloc, first)?)?;
        rest = others;
    }
    Ok(Sequence::from_vec(properties))
}

/// Returns outputs, bad states and constraints, one after the other.
fn safety_props(
    alloc: Global,
    header: &Header,
    codes: &[u32],
) -> Result<(Sequence<Lit>, Sequence<Lit>, Sequence<Lit>), NoMemory>
    requires counted { length codes.now ≡ safety_count header.now }
    requires literals { All (λ lit. lit < 2 ^ 29) codes.now }
    ensures outputs { IfOk result (λ parts. parts.0 ≡ take header.now.outputs codes.now) }
    ensures bad { IfOk result (λ parts. parts.1 ≡ take header.now.bad
        (drop header.now.outputs codes.now)) }
    ensures constraints { IfOk result (λ parts. parts.2
        ≡ drop (header.now.outputs + header.now.bad) codes.now) }
{
    let (outputs, rest) = codes.split_at(header.outputs as usize);
    let (bad, constraints) = rest.split_at(header.bad as usize);
    Ok((
        literals(alloc, outputs)?,
        literals(alloc, bad)?,
        literals(alloc, constraints)?,
    ))
}

/// Returns the properties by kind, with literals by their numbers in the circuit. `safety` has
/// those of outputs, bad states and constraints. `liveness` has those of justice properties of
/// these sizes, and then of fairness.
///
/// # Errors
///
/// `NoMemory` if memory is refused.
pub fn props(
    alloc: Global,
    header: &Header,
    safety: &[u32],
    sizes: &[u32],
    liveness: &[u32],
) -> Result<Props, NoMemory>
    requires safety { length safety.now ≡ safety_count header.now }
    requires liveness { length liveness.now ≡ sum sizes.now + header.now.fairness }
    requires safety_literals { All (λ lit. lit < 2 ^ 29) safety.now }
    requires liveness_literals { All (λ lit. lit < 2 ^ 29) liveness.now }
    ensures { IfOk result (λ props. props ≡ props_of header.now safety.now sizes.now liveness.now) }
{
    let (outputs, bad, constraints) = safety_props(alloc, header, safety)?;
    let justice = justice(alloc, sizes, liveness)?;
    let (_, fairness) = liveness.split_at(liveness.len() - header.fairness as usize);
    Ok(Props {
        outputs,
        bad,
        constraints,
        justice,
        fairness: literals(alloc, fairness)?,
    })
}
