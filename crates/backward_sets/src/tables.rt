//! Tables by variable. Nothing stands past the end of a table.

use checked_tables::{entry_or, put_if_there};

/// Returns a number of entries in 32 bits, in which it fits: a graph has fewer.
pub fn number(many: usize) -> u32 {
    (many & 0xffff_ffff) as u32
}

/// Returns true if a variable has a mark.
pub fn has_mark(marks: &[bool], var: u32) -> bool {
    entry_or(marks, var as usize, false)
}

/// Marks a variable, or takes its mark away if `mark` is false.
pub fn set_mark(marks: &mut [bool], var: u32, mark: bool) {
    put_if_there(marks, var as usize, mark);
}

/// Returns the number of marks that are set.
pub fn count_marks(marks: &[bool]) -> u32 {
    let mut count = 0u32;
    for mark in marks {
        count = count.wrapping_add(u32::from(*mark));
    }
    count
}

/// Returns the number at `place`, or 0 past the end.
pub fn entry(numbers: &[u32], place: u32) -> u32 {
    entry_or(numbers, place as usize, 0)
}

/// Puts a number at `place`, if the table has it.
pub fn set_entry(numbers: &mut [u32], place: u32, number: u32) {
    put_if_there(numbers, place as usize, number);
}
