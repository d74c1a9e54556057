//! Judges sets of gates by routes, which go from known latches to what reads from outside the set.
//! If as many routes as a closed set's border has variables are apart, no two of them pass after
//! one variable. Each closed set then has a border variable of its own on each route. So none has a
//! smaller border, whoever found set and routes.
#![tactic(auto)]

ghost use Rattle.certificates.specs.Verdicts.{LeastLaw, YesLaw};

mod apart;
mod certificate;
mod judging;
mod merged;
mod routes;
mod verdict;
mod walk;

pub use certificate::Certificate;
pub use judging::{check, check_closed};
pub use merged::MergedLatch;
pub use routes::Routes;
pub use verdict::{Objection, Verdict};

/// A closed set whose border has as many variables as there are routes apart from one another is
/// least.
pub fn least_law()
    ensures { LeastLaw }
{}

/// The set of a certificate that passes all tests is least, and its count is the size of the set's
/// border.
pub fn yes_law()
    ensures { YesLaw }
{}
