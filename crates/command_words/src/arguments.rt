//! The arguments of each command, in the order of its help. Those of several commands come first.
use crate::argument::Argument;
use crate::argument::Form::{Flag, Hidden, Limit, Number, Numbers, Path, Text, Texts};
use crate::argument::Tie::{Always, Apart, Free, With, WithApart};

/// The flag for ASCII, which isn't given together with the one for binary.
const ASCII: Argument = Argument("ascii", Flag, Apart("binary"), "Write ASCII");

const BINARY: Argument = Argument("binary", Flag, Free, "Write binary");

const FRAMES: Argument = Argument(
    "frames",
    Limit(1 << 28, "268435456"),
    Free,
    "The most frames to take",
);

const NEAR: Argument = Argument(
    "near",
    Flag,
    Free,
    "Move latches as few gates as a least count allows",
);

const MERGE_FIRST: Argument = Argument(
    "merge",
    Flag,
    Free,
    "Merge latches that always agree, before any frame",
);

const LEVELS: Argument = Argument(
    "levels",
    Number(0, (1 << 32) - 1),
    Apart("no-longer"),
    "Let no path get more gates than n or the longest of IN",
);

const NO_LONGER: Argument = Argument(
    "no-longer",
    Flag,
    Free,
    "Let no path get longer than the longest of IN",
);

const JSON: Argument = Argument(
    "json",
    Flag,
    Free,
    "Print an object of JSON in place of the lines",
);

const KEEP: Argument = Argument(
    "keep",
    Texts("NAME"),
    Free,
    "Hold each latch with this name; may be repeated",
);

/// The file of names; the program puts in its names before the words are parsed.
const KEEP_FROM: Argument = Argument(
    "keep-from",
    Texts("FILE"),
    Free,
    "Hold the latches that the lines of FILE name",
);

const KEEP_LATCH: Argument = Argument(
    "keep-latch",
    Numbers((1 << 28) - 1),
    Free,
    "Hold the latch at position n, from 0; may be repeated",
);

const READ_CIRCUIT: Argument = Argument("IN", Path, Always, "The AIGER file to read");

const ORIGINAL: Argument = Argument("IN", Path, Always, "The AIGER file that was retimed");

const WRITTEN_CIRCUIT: Argument = Argument("OUT", Path, Always, "The AIGER file to write");

/// The circuit that was made of IN, in a command that reads both.
const RETIMED: Argument = Argument("OUT", Path, Always, "The AIGER file that was written");

const MAP: Argument = Argument("MAP", Path, Always, "The map of states");

const RANDOM: Argument = Argument(
    "random",
    Number(1, 1 << 20),
    Apart("STIM"),
    "Take n random sequences in place of STIM",
);

const STEPS: Argument = Argument(
    "steps",
    Number(1, 1 << 22),
    WithApart("random", "STIM"),
    "The steps of each random sequence, else 100",
);

const SEED: Argument = Argument(
    "seed",
    Number(0, (1 << 32) - 1),
    WithApart("random", "STIM"),
    "What random digits follow from, else 0",
);

const PROGRESS: Argument = Argument(
    "progress",
    Flag,
    Apart("quiet"),
    "Write a line to standard error as each frame begins",
);

const QUIET: Argument = Argument("quiet", Flag, Free, "Show no progress on a terminal either");

/// The map of a command that moves latches forward.
const MAP_ON: Argument = Argument(
    "map",
    Text("MAP"),
    Free,
    "Write how OUT's latches follow from IN's to MAP",
);

pub(crate) const RETIME: &[Argument] = &[
    READ_CIRCUIT,
    WRITTEN_CIRCUIT,
    ASCII,
    BINARY,
    Argument(
        "workers",
        Limit(64, "1"),
        Free,
        "Threads that work on the flow",
    ),
    FRAMES,
    NEAR,
    MERGE_FIRST,
    Argument(
        "classes",
        Text("FILE"),
        With("merge"),
        "Merge the latches that the certificates in FILE list",
    ),
    LEVELS,
    NO_LONGER,
    Argument(
        "cert",
        Text("FILE"),
        Free,
        "Write a certificate of each frame to FILE",
    ),
    MAP_ON,
    PROGRESS,
    QUIET,
    KEEP,
    KEEP_FROM,
    KEEP_LATCH,
    JSON,
];

pub(crate) const BACKWARD: &[Argument] = &[
    READ_CIRCUIT,
    WRITTEN_CIRCUIT,
    ASCII,
    BINARY,
    FRAMES,
    LEVELS,
    NO_LONGER,
    Argument(
        "enables",
        Flag,
        Free,
        "Then move registers with an enable or a reset, too",
    ),
    Argument(
        "map",
        Text("MAP"),
        Free,
        "Write how IN's latches follow from OUT's to MAP",
    ),
    PROGRESS,
    QUIET,
    KEEP,
    KEEP_FROM,
    KEEP_LATCH,
    JSON,
];

pub(crate) const ENABLES: &[Argument] = &[
    READ_CIRCUIT,
    WRITTEN_CIRCUIT,
    ASCII,
    BINARY,
    FRAMES,
    LEVELS,
    NO_LONGER,
    MAP_ON,
    PROGRESS,
    QUIET,
    KEEP,
    KEEP_FROM,
    KEEP_LATCH,
    JSON,
];

pub(crate) const BATCH: &[Argument] = &[
    Argument(
        "LIST",
        Path,
        Always,
        "The list: a line for each circuit, IN, a tab, and OUT",
    ),
    ASCII,
    BINARY,
    Argument(
        "workers",
        Limit(64, "1"),
        Free,
        "Threads, each with a circuit at a time",
    ),
    FRAMES,
    NEAR,
    MERGE_FIRST,
    LEVELS,
    NO_LONGER,
    JSON,
];

pub(crate) const STAT: &[Argument] = &[
    READ_CIRCUIT,
    Argument(
        "merge",
        Flag,
        Free,
        "Count the latches that always agree, too",
    ),
    JSON,
];

pub(crate) const CONVERT: &[Argument] = &[READ_CIRCUIT, WRITTEN_CIRCUIT, ASCII, BINARY];

pub(crate) const SIM: &[Argument] = &[
    READ_CIRCUIT,
    Argument("STIM", Path, Free, "The stimulus"),
    RANDOM,
    STEPS,
    SEED,
    Argument(
        "vcd",
        Text("FILE"),
        Free,
        "Write the waves to FILE, as a value change dump (IEEE 1364)",
    ),
];

pub(crate) const SAME: &[Argument] = &[
    Argument("A", Path, Always, "The first AIGER file"),
    Argument("B", Path, Always, "The second AIGER file"),
    Argument("STIM", Path, Free, "The stimulus, with the widths of A"),
    RANDOM,
    STEPS,
    SEED,
    Argument(
        "kept",
        Text("LIST"),
        Free,
        "B has the free latches of A in LIST alone",
    ),
    JSON,
];

pub(crate) const VERIFY: &[Argument] = &[
    ORIGINAL,
    Argument("CERT", Path, Always, "The certificates"),
    KEEP,
    KEEP_FROM,
    KEEP_LATCH,
    Argument(
        "out",
        Text("OUT"),
        Free,
        "Check that the blocks end in OUT, too",
    ),
    Argument("merge", Flag, Free, "IN was retimed with --merge"),
    LEVELS,
    NO_LONGER,
    JSON,
];

pub(crate) const CHECK: &[Argument] = &[
    Argument(
        "IN",
        Path,
        Always,
        "The AIGER file that the other is compared with",
    ),
    Argument("OUT", Path, Always, "The AIGER file that was made of it"),
    Argument("MAP", Path, Free, "The map of states, if there is one"),
    Argument(
        "kept",
        Text("LIST"),
        Apart("MAP"),
        "OUT has the free latches of IN in LIST alone",
    ),
];

pub(crate) const MITER: &[Argument] = &[
    ORIGINAL,
    RETIMED,
    MAP,
    Argument("MITER", Path, Always, "The AIGER file to write"),
    ASCII,
    BINARY,
    Argument(
        "certificate",
        Hidden("CERT"),
        Free,
        "Write a model of both, and its certificate to CERT",
    ),
];

pub(crate) const PRODUCT: &[Argument] = &[
    ORIGINAL,
    RETIMED,
    MAP,
    Argument("MODEL", Path, Always, "The AIGER file to write"),
    Argument(
        "CERT",
        Path,
        Always,
        "The witness circuit for MODEL to write",
    ),
    ASCII,
    BINARY,
];

pub(crate) const LIFT: &[Argument] = &[
    ORIGINAL,
    RETIMED,
    MAP,
    Argument("CERT", Path, Always, "The witness circuit for OUT"),
    Argument(
        "RESULT",
        Path,
        Always,
        "The witness circuit for IN to write",
    ),
    Argument(
        "back",
        Flag,
        Free,
        "Read MAP as 'backward' writes it, from OUT to IN",
    ),
    ASCII,
    BINARY,
];

pub(crate) const DOT: &[Argument] = &[
    READ_CIRCUIT,
    Argument("OUT", Path, Always, "The DOT file to write"),
    Argument(
        "frame",
        Flag,
        Free,
        "Show over which gates latches move next",
    ),
    Argument(
        "merge",
        Flag,
        With("frame"),
        "Merge latches that always agree first",
    ),
    Argument(
        "levels",
        Number(0, (1 << 32) - 1),
        WithApart("frame", "no-longer"),
        "Let no path get more gates than n or the longest of IN",
    ),
    Argument(
        "no-longer",
        Flag,
        With("frame"),
        "Let no path get longer than the longest of IN",
    ),
    KEEP,
    KEEP_FROM,
    KEEP_LATCH,
    Argument(
        "around",
        Text("NAME"),
        Free,
        "Draw the neighbourhood of what has this name alone",
    ),
    Argument(
        "depth",
        Number(1, 100),
        With("around"),
        "How many edges the neighbourhood reaches, else 2",
    ),
];

pub(crate) const WITNESS: &[Argument] = &[
    ORIGINAL,
    RETIMED,
    Argument("WITNESS", Path, Always, "The witness for OUT"),
    Argument("merge", Flag, Free, "OUT was written with --merge"),
];

pub(crate) const EXPLAIN: &[Argument] = &[Argument("FAULT", Path, Always, "The name of the fault")];
