//! The words of circuit files, after the AIGER 1.9 note: two spellings, lines and numbers, a
//! circuit's text, and the faults of other bytes.
#![tactic(auto)]

mod cutting;
mod fault;
mod lines;
mod numbers;
mod spelling;
mod word;

pub use cutting::{cut, first_line};
pub use fault::ReadError;
pub use lines::{Line, Lines};
pub use numbers::number;
pub use spelling::Spelling;
pub use word::is_word;
