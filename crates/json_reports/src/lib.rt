//! What the program prints on standard output for other programs: an object of JSON for each
//! command, on one line. The members of an object stand in the order of their names, and every
//! number is whole.
#![tactic(auto)]

mod audit;
mod batch;
mod commands;
mod counts;
mod difference;
mod fault;
mod members;
mod printing;
mod refusal;
mod retiming;
mod times;

pub use audit::audit_object;
pub use batch::batch_object;
pub use commands::{
    print_audit, print_batch, print_difference, print_refusal, print_retiming, print_shapes_differ,
    print_statistics,
};
pub use counts::{MapCounts, ReadLevels, circuit_object, statistics_object};
pub use difference::{difference_object, shapes_object};
pub use fault::Fault;
pub use members::{count_value, wide};
pub use printing::{PrintError, print_object};
pub use refusal::{Refusal, refusal_object};
pub use retiming::retiming_object;
pub use times::{FrameTimes, Times};
