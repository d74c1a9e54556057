//! The page of each fault, and what a user is told of it: what it means, its rule, and what to do.
ghost use Rattle.std.specs.Prelude.{◌≡◌};
ghost use Rattle.circuit_files.specs.pages.Pages.{meaning_of, rule_of, advice_of};

mod circuit_pages;
mod hints;
mod line;
mod message;
mod name_hints;
mod named_fault;
mod near_faults;
mod near_names;
mod other_pages;
mod page;
mod reasons;
mod returns;
mod showing;
mod smallest_file;
mod spelling;

use crate::pages::{circuit_pages as circuits, other_pages as others};
pub use hints::{Told, give_hint, tell_page};
pub use message::Message;
pub use named_fault::Fault;
pub use near_names::nearest;
pub use page::Page;
pub use returns::tell_returns;
pub use showing::{printable, shown_line};
pub use spelling::tell_spelling;

impl Fault {
    /// Returns the page that a user is shown of it.
    pub fn page(self) -> Page
        ensures meaning { result.meaning.now ≡ meaning_of self }
        ensures rule { result.rule.now ≡ rule_of self }
        ensures advice { result.advice.now ≡ advice_of self }
    {
        *page_of(self)
    }
}

/// Returns the page among the constants.
fn page_of(fault: Fault) -> &'static Page
    ensures meaning { result.now.meaning.now ≡ meaning_of fault }
    ensures rule { result.now.rule.now ≡ rule_of fault }
    ensures advice { result.now.advice.now ≡ advice_of fault }
{
    match fault {
        Fault::BadHeader => &circuits::BAD_HEADER,
        Fault::TooLarge => &circuits::TOO_LARGE,
        Fault::MaxIndex => &circuits::MAX_INDEX,
        Fault::BadLine => &circuits::BAD_LINE,
        Fault::BadLiteral => &circuits::BAD_LITERAL,
        Fault::DefinedTwice => &circuits::DEFINED_TWICE,
        Fault::Undefined => &circuits::UNDEFINED,
        Fault::Cycle => &circuits::CYCLE,
        Fault::BadReset => &circuits::BAD_RESET,
        Fault::BadDelta => &circuits::BAD_DELTA,
        Fault::Truncated => &circuits::TRUNCATED,
        Fault::BadSymbol => &circuits::BAD_SYMBOL,
        Fault::Trailing => &circuits::TRAILING,
        Fault::Width => &others::WIDTH,
        Fault::TooMany => &others::TOO_MANY,
        Fault::NoSuchName => &others::NO_SUCH_NAME,
        Fault::NoSuchLatch => &others::NO_SUCH_LATCH,
        Fault::NoSuchProperty => &others::NO_SUCH_PROPERTY,
        Fault::TooManyNodes => &others::TOO_MANY_NODES,
        Fault::TooManySteps => &others::TOO_MANY_STEPS,
        Fault::NotAMap => &others::NOT_A_MAP,
        Fault::NoSuchLiteral => &others::NO_SUCH_LITERAL,
        Fault::ShapesDiffer => &others::SHAPES_DIFFER,
        Fault::NotClosed => &others::NOT_CLOSED,
        Fault::BadRoute => &others::BAD_ROUTE,
        Fault::UsedTwice => &others::USED_TWICE,
        Fault::CountDiffers => &others::COUNT_DIFFERS,
        Fault::TooLong => &others::TOO_LONG,
        Fault::Misread => &others::MISREAD,
        Fault::NotShown => &others::NOT_SHOWN,
        Fault::NoMemory => &others::NO_MEMORY,
        Fault::Device => &others::DEVICE,
    }
}
