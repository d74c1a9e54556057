//! What a command line asks for, without how that was written: the words of options and their
//! defaults are known in this crate alone. Paths and names are slices of the arguments, so a task
//! takes memory for lists of names and of their files only.
ghost use Rattle.std.specs.Prelude.{◌≡◌};
ghost use Rattle.command_line.specs.Asking.{command_of, move_name};

use crate::options::RetimingOptions;
use counted_io::{Source, Target};
use file_words::Spelling;

/// What is shown of a run on standard error while it goes on.
#[derive(Clone, Copy, PartialEq, Eq)]
pub enum Shown {
    /// One line, if standard error is a terminal.
    OnTerminal,
    /// A line for each frame.
    EachFrame,
    /// Nothing.
    Nothing,
}

/// What `retime` is to do.
#[derive(Drop)]
pub struct Retiming<'a> {
    /// What is read.
    pub input: Source<'a>,
    /// What is written.
    pub output: Target<'a>,
    /// How latches are moved.
    pub options: RetimingOptions<'a>,
    /// The number of workers of the flow, from 1 to 64.
    pub workers: u32,
    /// The certificates whose merged latches are merged, if the options merge any; `None` has them
    /// found.
    pub classes: Option<Source<'a>>,
    /// What the certificates are written to; `None` asks for none.
    pub certificates: Option<Target<'a>>,
    /// What the map of states is written to; `None` asks for none.
    pub map: Option<Target<'a>>,
    /// What is shown of the run.
    pub shown: Shown,
    /// Whether an object of JSON is printed in place of the lines.
    pub json: bool,
}

/// The commands that write what a judge takes, whoever drafted it.
#[derive(Clone, Copy, PartialEq, Eq)]
pub enum MoveKind {
    /// Latches move backward, from behind gates to before them.
    Backward,
    /// Registers with an enable or a reset move forward, as those without do.
    Enables,
}

impl MoveKind {
    /// Returns the word for the command.
    pub fn command(self) -> &'static str
        ensures { result.now ≡ move_name self }
    {
        match self {
            MoveKind::Backward => "backward",
            MoveKind::Enables => "enables",
        }
    }
}

/// What `backward` or `enables` is to do.
#[derive(Drop)]
pub struct Moving<'a> {
    /// Which of both it is.
    pub kind: MoveKind,
    /// What is read.
    pub input: Source<'a>,
    /// What is written.
    pub output: Target<'a>,
    /// How latches are moved. None are merged, and the choice of least sets says nothing.
    pub options: RetimingOptions<'a>,
    /// What the map of states is written to; `None` asks for none.
    pub map: Option<Target<'a>>,
    /// Whether `backward` moves registers with an enable or a reset too.
    pub enables: bool,
    /// What is shown of the run.
    pub shown: Shown,
    /// Whether an object of JSON is printed in place of the lines.
    pub json: bool,
}

/// What `verify` is to do.
#[derive(Drop)]
pub struct Verification<'a> {
    /// The circuit.
    pub input: Source<'a>,
    /// The certificates.
    pub certificates: Source<'a>,
    /// The circuit that the retiming is to end in; `None` doesn't ask for it.
    pub retimed: Option<Source<'a>>,
    /// How latches were moved.
    pub options: RetimingOptions<'a>,
    /// Whether an object of JSON is printed in place of the lines.
    pub json: bool,
}

/// Which random sequences a circuit is simulated under.
#[derive(Clone, Copy)]
pub struct Sequences {
    /// How many, from 1 to 2^20.
    pub count: u32,
    /// The steps of each, from 1 to 2^22.
    pub steps: u32,
    /// What their digits follow from.
    pub seed: u32,
}

/// The stimulus that circuits are simulated under.
#[derive(Clone, Copy)]
pub enum Stimuli<'a> {
    /// The stimulus that is read.
    Read(Source<'a>),
    /// Random sequences.
    Random(Sequences),
}

/// What `sim` is to do.
#[derive(Clone, Copy)]
pub struct Simulation<'a> {
    /// The circuit.
    pub input: Source<'a>,
    /// What it is simulated under.
    pub stimuli: Stimuli<'a>,
    /// What the waves are written to; `None` asks for none.
    pub waves: Option<Target<'a>>,
}

/// What `same` is to do.
#[derive(Drop)]
pub struct Comparison<'a> {
    /// The first circuit.
    pub first: Source<'a>,
    /// The second circuit.
    pub second: Source<'a>,
    /// The list of the free latches of the first that the second has; `None` if it has each.
    pub kept: Option<Source<'a>>,
    /// What both are simulated under, with the widths of the first.
    pub stimuli: Stimuli<'a>,
    /// Whether an object of JSON is printed in place of the line.
    pub json: bool,
}

/// What `batch` is to do.
#[derive(Drop)]
pub struct Batch<'a> {
    /// The list of files.
    pub list: Source<'a>,
    /// How the latches of each circuit are moved.
    pub options: RetimingOptions<'a>,
    /// The number of workers, from 1 to 64, each of which takes a file at a time.
    pub workers: u32,
    /// Whether an object of JSON is printed in place of the lines.
    pub json: bool,
}

/// What `dot` is to do.
#[derive(Drop)]
pub struct Drawing<'a> {
    /// The circuit.
    pub input: Source<'a>,
    /// What the picture is written to.
    pub output: Target<'a>,
    /// Whether the set over which latches move next is shown.
    pub frame: bool,
    /// The latches that are held, and how the others move if that set is shown.
    pub options: RetimingOptions<'a>,
    /// The name of what the picture shows the neighbourhood of; `None` asks for the whole circuit.
    pub around: Option<&'a str>,
    /// How many edges the neighbourhood reaches, from 1 to 100.
    pub depth: u32,
}

/// What `stat` is to do.
#[derive(Clone, Copy)]
pub struct Counting<'a> {
    /// The circuit.
    pub input: Source<'a>,
    /// Whether it is told how many latches always agree.
    pub merge: bool,
    /// Whether an object of JSON is printed in place of the lines.
    pub json: bool,
}

/// What `witness` is to do.
#[derive(Clone, Copy)]
pub struct Carrying<'a> {
    /// The circuit.
    pub input: Source<'a>,
    /// The circuit that was made of it.
    pub retimed: Source<'a>,
    /// The witness for that one.
    pub witness: Source<'a>,
    /// Whether latches that always agree were merged before the first frame.
    pub merge: bool,
}

/// What `check` is to do.
#[derive(Clone, Copy)]
pub struct Checking<'a> {
    /// The circuit.
    pub input: Source<'a>,
    /// The circuit that was made of it.
    pub retimed: Source<'a>,
    /// The map of the states of the one to those of the other. Without one both are compared side
    /// by side.
    pub map: Option<Source<'a>>,
    /// Which free latches of the first the second has, where it hasn't all of them.
    pub kept: Option<Source<'a>>,
}

/// What `miter` is to do, and `product`, which always has a certificate.
#[derive(Clone, Copy)]
pub struct Asking<'a> {
    /// The circuit.
    pub input: Source<'a>,
    /// The circuit that was made of it.
    pub retimed: Source<'a>,
    /// The map of the states of the one to those of the other.
    pub map: Source<'a>,
    /// What the miter, or the model of both, is written to.
    pub output: Target<'a>,
    /// The file for the pair of both with its invariant, a witness circuit; `None` asks for none.
    pub certificate: Option<Target<'a>>,
    /// The spelling of the written file; `None` is that of the map.
    pub spelling: Option<Spelling>,
}

/// What `lift` is to do.
#[derive(Clone, Copy)]
pub struct Lifting<'a> {
    /// The circuit.
    pub input: Source<'a>,
    /// The circuit that was made of it.
    pub retimed: Source<'a>,
    /// The map of the states of the one to those of the other.
    pub map: Source<'a>,
    /// The witness circuit for the one that was made.
    pub witness: Source<'a>,
    /// What the witness circuit for the first one is written to.
    pub output: Target<'a>,
    /// The spelling of the written file; `None` is that of the witness circuit that is read.
    pub spelling: Option<Spelling>,
    /// Whether the map leads back, from the states of the circuit that was made to those of the
    /// first one.
    pub back: bool,
}

/// What a command line asks for.
#[derive(Drop)]
pub enum Task<'a> {
    /// Retime a circuit.
    Retime(Retiming<'a>),
    /// Move the latches of a circuit backward, or those with an enable or a reset forward.
    Move(Moving<'a>),
    /// Retime the circuits of a list.
    Batch(Batch<'a>),
    /// Count what a circuit has.
    Stat(Counting<'a>),
    /// Write a circuit in a spelling; `None` is the one that wasn't read.
    Convert(Source<'a>, Target<'a>, Option<Spelling>),
    /// Simulate a circuit under a stimulus.
    Sim(Simulation<'a>),
    /// Compare two circuits under a stimulus.
    Same(Comparison<'a>),
    /// Check the certificates of a retiming.
    Verify(Verification<'a>),
    /// Check that a circuit has the properties of another, by a map of states or without one.
    Check(Checking<'a>),
    /// Write what a map of states has to meet as a circuit.
    Miter(Asking<'a>),
    /// Write two circuits side by side, and a certificate that they agree.
    Product(Asking<'a>),
    /// Write a witness circuit for a circuit, of one for the circuit that was made of it.
    Lift(Lifting<'a>),
    /// Write a picture of a circuit.
    Dot(Drawing<'a>),
    /// Carry a witness of a retimed circuit back to the one that it was made of.
    Witness(Carrying<'a>),
    /// Print the page of the fault with this name.
    Explain(&'a str),
}

impl Task<'_> {
    /// Returns the word for the command.
    pub fn command(&self) -> &'static str
        ensures { result.now ≡ command_of self.now }
    {
        match self {
            Task::Retime(_) => "retime",
            Task::Move(moving) => moving.kind.command(),
            Task::Batch(_) => "batch",
            Task::Stat(_) => "stat",
            Task::Convert(_, _, _) => "convert",
            Task::Sim(_) => "sim",
            Task::Same(_) => "same",
            Task::Verify(_) => "verify",
            Task::Check(_) => "check",
            Task::Miter(_) => "miter",
            Task::Product(_) => "product",
            Task::Lift(_) => "lift",
            Task::Dot(_) => "dot",
            Task::Witness(_) => "witness",
            Task::Explain(_) => "explain",
        }
    }
}
