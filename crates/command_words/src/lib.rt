//! The words of a command line, as tables: the commands, the arguments of each and what the help
//! says of them. Of them the program is made by which the command-line library reads words. The
//! task that the words ask for is known above.
#![tactic(auto)]

mod argument;
mod arguments;
mod naming;
mod program;
mod subcommands;
mod texts;

pub use naming::command_named;
pub use program::program_command;
