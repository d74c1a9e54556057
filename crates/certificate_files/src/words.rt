//! The points of a route. A number that is too great is read as `u32::MAX` at first. The form of
//! the whole line is looked at before the size of any number.
ghost use Rattle.std.specs.Prelude.{◌≡◌, ◌∷◌, List, ℕ};
ghost use Rattle.file_words.specs.Lines.{pieces};
ghost use Rattle.certificate_files.specs.declared.fault.CertError.TheVariants.{NoMemory};
ghost use Rattle.file_words.specs.Answering.{Gives, Leads};
ghost use Rattle.certificate_files.specs.Files.{saying_of};
ghost use Rattle.certificate_files.specs.Forms.{are_small, number_of, onto, routed, side_of, sized_points, spelt_at, spelt_point};

use crate::fault::CertError;
use crate::forms::{after_letters, is_small};
use aig_graph::Sequence;
use file_words::{Line, cut, number};
use frame_net::Point;
use std::alloc::Global;

/// Returns the number that decimal digits spell. `u32::MAX` stands for each greater one too.
fn small_number(digits: &[u8]) -> Option<u32>
    ensures { result ≡ number_of digits.now }
{
    match number(digits) {
        Some(number) => Some(number.min(u64::from(u32::MAX)) as u32),
        None => None,
    }
}

/// Returns true for the sign of the point after a variable, false for that of the point before it.
fn side(sign: u8) -> Option<bool>
    ensures { result ≡ side_of sign }
{
    match sign {
        b'+' => Some(true),
        b'-' => Some(false),
        _ => None,
    }
}

fn point(word: &[u8]) -> Option<Point>
    ensures { result ≡ spelt_point word.now }
{
    let (sign, digits) = word.split_last()?;
    let var = small_number(digits)?;
    let behind = side(*sign)?;
    Some(Point { var, behind })
}

fn push_point(points: &mut Vec<Point>, at: u64, word: &[u8]) -> Result<(), CertError>
    ensures { (words : List (List ℕ)) → Leads NoMemory (λ done. onto points.new.items
        (spelt_at at words)) result (onto points.old.items (spelt_at at (word.now ∷ words))) }
{
    let Some(point) = point(word) else {
        return Err(CertError::BadLine(at));
    };
    points.push(point)?;
    Ok(())
}

/// Returns the points that are spelt with one space between. `u32::MAX` stands for each greater
/// number too.
fn spelt_points(alloc: Global, at: u64, words: &[u8]) -> Result<Vec<Point>, CertError>
    ensures { Gives NoMemory (λ points. points.items) result (spelt_at at (pieces words.now)) }
{
    let mut points = Vec::new(alloc);
    let mut rest = words;
    while let Some((word, more)) = cut(rest, b' ') {
        push_point(&mut points, at, word)?;
        rest = more;
    }
    push_point(&mut points, at, rest)?;
    Ok(points)
}

fn are_small(points: &[Point]) -> bool
    ensures { result ≡ are_small points.now }
{
    points.iter().all(|point| is_small(point.var))
}

fn sized(at: u64, points: Vec<Point>) -> Result<Sequence<Point>, CertError>
    ensures { result ≡ sized_points at points.items }
{
    if are_small(points.as_slice()) {
        Ok(Sequence::from_vec(points))
    } else {
        Err(CertError::TooLarge(at))
    }
}

/// Reads the line as one of a route.
pub(crate) fn route_line(alloc: Global, line: &Line<'_>) -> Result<Sequence<Point>, CertError>
    ensures { Gives NoMemory (λ points. points) result (routed line.now.at (saying_of line.now.text.now)) }
{
    let Some(words) = after_letters(line.text, b"r ") else {
        return Err(CertError::BadLine(line.at));
    };
    let points = spelt_points(alloc, line.at, words)?;
    sized(line.at, points)
}
