//! Ranks from marks, by running counts: a variable's number is the count of marked ones before it.
ghost use Rattle.std.specs.Prelude.{ℕ, Bool, ◌≡◌, ◌+◌, ◌≤◌, ◌^◌, IfOk, length, if◌then◌else◌};
ghost use Rattle.aig_graph.specs.Counting.{count_below, places, numbered};
ghost use Rattle.aig_graph.specs.Marking.{AreAllMarks};
ghost use Rattle.aig_graph.specs.Tables.{table};

use crate::memory::NoMemory;
use std::alloc::Global;

/// Returns 1 if the mark is set, else 0.
fn one_if(mark: bool) -> u32
    ensures value { result ≡ (if mark then 1 else 0) }
    ensures small { result ≤ 1 }
{
    u32::from(mark)
}

/// Returns the number of variables that are marked.
pub fn count_marks(marks: &[bool]) -> u32
    requires { length marks.now ≤ 2 ^ 30 }
    ensures { (first : ℕ) (p : ℕ → Bool) → AreAllMarks first marks.now p
        → result ≡ count_below p (first + length marks.now) }
{
    let mut count = 0;
    for mark in marks {
        count += one_if(*mark);
    }
    count
}

/// Returns by variable the number of marked ones before it, counted from `start` on.
pub fn number_marks(alloc: Global, marks: &[bool], start: u32) -> Result<Vec<u32>, NoMemory>
    requires { start + length marks.now ≤ 2 ^ 30 }
    ensures { IfOk result (λ numbers. (first : ℕ) (p : ℕ → Bool) → AreAllMarks first marks.now p →
        numbers.items ≡ table first (length marks.now) (λ v. start + count_below p v)) }
{
    let mut numbers = Vec::with_capacity(alloc, marks.len())?;
    let mut number = start;
    for mark in marks {
        numbers.push(number)?;
        number += one_if(*mark);
    }
    Ok(numbers)
}

/// Returns by variable, from `first` on, its new number. The variables marked in `ahead` count up
/// from `start`, those marked in `others` from `next`, and the rest keep their own.
pub fn renumber(
    alloc: Global,
    first: u32,
    ahead: &[bool],
    others: &[bool],
    start: u32,
    next: u32,
) -> Result<Vec<u32>, NoMemory>
    requires same { length others.now ≡ length ahead.now }
    requires variables { first + length ahead.now ≤ 2 ^ 30 }
    requires room { start + length ahead.now ≤ 2 ^ 30 }
    requires more_room { next + length ahead.now ≤ 2 ^ 30 }
    ensures { IfOk result (λ numbers. (p q : ℕ → Bool) → AreAllMarks first ahead.now p
        → AreAllMarks first others.now q →
        numbers.items ≡ table first (length ahead.now) (numbered p q start next)) }
{
    let mut numbers = Vec::with_capacity(alloc, ahead.len())?;
    let mut ahead_number = start;
    let mut other_number = next;
    for k in 0..ahead.len() {
        let number = if ahead[k] {
            ahead_number
        } else if others[k] {
            other_number
        } else {
            first + k as u32
        };
        numbers.push(number)?;
        ahead_number += one_if(ahead[k]);
        other_number += one_if(others[k]);
    }
    Ok(numbers)
}

/// Returns the variables that are marked, rising.
pub fn marked_variables(alloc: Global, first: u32, marks: &[bool]) -> Result<Vec<u32>, NoMemory>
    requires { first + length marks.now ≤ 2 ^ 30 }
    ensures { IfOk result (λ vars. (p : ℕ → Bool) → AreAllMarks first marks.now p →
        vars.items ≡ places p (first + length marks.now)) }
{
    let mut vars = Vec::with_capacity(alloc, count_marks(marks) as usize)?;
    for (k, mark) in marks.iter().enumerate() {
        if *mark {
            vars.push(first + k as u32)?;
        }
    }
    Ok(vars)
}
