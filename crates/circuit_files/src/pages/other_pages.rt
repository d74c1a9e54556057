//! The pages of the faults that no circuit has by itself.
use crate::pages::page::Page;

pub const WIDTH: Page = Page {
    meaning: "There are more or fewer values than latches or inputs.",
    rule: "In a stimulus a line '=' has a digit for each free latch, and a line ':' one
for each input, of A where two circuits are compared. The second line of values
of a witness has one for each latch, each further line one for each input. A
list of kept latches has a line for each free latch of B.",
    advice: "Ask 'fretime stat IN' for the number of inputs and of free latches.",
};

pub const TOO_MANY: Page = Page {
    meaning: "A stimulus has more than 1048576 sequences.",
    rule: "A line '=' begins a sequence.",
    advice: "Cut the stimulus before a line '=', and run each part.",
};

pub const NO_SUCH_NAME: Page = Page {
    meaning: "The circuit has no latch, or for --around nothing, of this name.",
    rule: "Names are those of the symbols of the file, compared byte by byte: --keep takes
those of latches, 'l', and --around of 'dot' those of all kinds. Where nothing
has the name, --around takes what a picture calls it: l3 is the latch at
position 3, from 0, i3 such an input, o3, b3, c3, j3 or f3 such a property, and
14 the gate with that literal.",
    advice: "List those of latches: grep -a '^l[0-9]' IN. A file without names gets them
where it is written, as by Yosys' write_aiger -symbols.",
};

pub const NO_SUCH_LATCH: Page = Page {
    meaning: "The circuit has no latch at this place.",
    rule: "--keep-latch takes places from 0 on, in the order of the file: 3 is the latch
whose name, if it has one, stands in a line 'l3'.",
    advice: "Ask 'fretime stat IN' for the number of latches: places are below it.",
};

pub const NO_SUCH_PROPERTY: Page = Page {
    meaning: "A witness names a property that the circuit doesn't have.",
    rule: "The second line of a witness names bad states, b0 on, and justice properties,
j0 on, by their positions.",
    advice: "See that the witness is one of this circuit: 'fretime stat OUT' counts its
properties.",
};

pub const TOO_MANY_NODES: Page = Page {
    meaning: "A circuit of over 2000 nodes makes no picture that can be read.",
    rule: "Inputs, latches, gates and properties are nodes.",
    advice: "Draw a neighbourhood: 'fretime dot IN OUT --around NAME --depth 3'.",
};

pub const NOT_A_MAP: Page = Page {
    meaning: "A circuit isn't a map of states, or its latches aren't those of IN and OUT.",
    rule: "A map has no latch, bad state, justice property or fairness constraint. It has
an input for each latch of IN and an output for each latch of OUT, for
'lift --back' the other way round.",
    advice: "See that IN, OUT and MAP are given in this order: 'fretime retime IN OUT --map
MAP' writes MAP.",
};

pub const NO_SUCH_LITERAL: Page = Page {
    meaning: "A name of a witness circuit says a literal that OUT hasn't, or one twice.",
    rule: "A name '= 12' of an input of CERT says the literal 12 of an input of OUT, one of
a latch that of a latch, and no two say the same. Literals are those of OUT in a
binary file.",
    advice: "See that CERT is a witness circuit for OUT, not for IN nor of another run.",
};

pub const TOO_MANY_STEPS: Page = Page {
    meaning: "So many random sequences, of so many steps, take too much memory.",
    rule: "All steps take 2^28 bytes at most, each 64 and one for each input; the choices
for free latches 2^28, one each; the trace 2^31 bits, one for each literal of a
property, or with --vcd for each wave, and each step, for 256 sequences at least.",
    advice: "Take fewer steps or sequences. For more of them run again with another --seed.",
};

pub const SHAPES_DIFFER: Page = Page {
    meaning: "Two circuits differ in their inputs, properties or free latches.",
    rule: "Both circuits have as many inputs, and as many outputs, bad states, constraints,
justice properties of the same sizes and fairness literals; for 'same' as many
free latches too. With 'lift --back' IN has no free latch.",
    advice: "Compare what 'fretime stat' prints of both circuits, and see that both are of
one run and in the order of the command. Where 'retime' left free latches
out, 'same' takes --kept LIST.",
};

/// The advice if a certificate is rejected.
const CHECK_AGAIN: &str =
    "See that the certificates are of this IN, and give what 'retime' got: --keep,
--keep-latch, --merge. Else they are wrong: 'fretime retime IN OUT --cert FILE'
writes others.";

pub const NOT_CLOSED: Page = Page {
    meaning: "The set of gates of a certificate isn't closed.",
    rule: "Its gates rise strictly. Each is a gate that latches may pass, and each gate
that it reads is one of the set.",
    advice: CHECK_AGAIN,
};

pub const BAD_ROUTE: Page = Page {
    meaning: "A list of points of a certificate is no route.",
    rule: "A route goes from a known latch through gates that latches may pass to what no
move passes, by the steps of docs/CERTIFICATES.md.",
    advice: CHECK_AGAIN,
};

pub const USED_TWICE: Page = Page {
    meaning: "Two routes of a certificate pass one variable.",
    rule: "Over all routes no point v+ stands twice.",
    advice: CHECK_AGAIN,
};

pub const COUNT_DIFFERS: Page = Page {
    meaning: "The numbers of a certificate differ.",
    rule: "The count that it states, the size of the border of its set and the number of
its routes are one number.",
    advice: CHECK_AGAIN,
};

pub const TOO_LONG: Page = Page {
    meaning: "A move makes a path longer than the bound on levels.",
    rule: "By the move over the set of a certificate no path gets more gates than --levels
names, or than the longest path of IN has. Its set is least all the same.",
    advice: "Give the bound that 'retime' got, or none. Certificates of a run that keeps it:
'fretime retime IN OUT --no-longer --cert FILE', or with --levels.",
};

pub const MISREAD: Page = Page {
    meaning: "A line of merged latches of a certificate names what no latch reads as.",
    rule: "Latches of the lines rise, and none is free or held. Each reads as its reset, or
as an earlier such latch that no line has, so that their resets agree.",
    advice: CHECK_AGAIN,
};

pub const NOT_SHOWN: Page = Page {
    meaning: "A merged latch of a certificate isn't shown to agree with what it reads as.",
    rule: "In each state in which all merged latches agree with what they read as, unit
propagation shows that they agree after the next step.",
    advice: CHECK_AGAIN,
};

pub const NO_MEMORY: Page = Page {
    meaning: "Memory was refused.",
    rule: "A run asks for memory as its circuit grows, and for none by a number of the
header alone. A refused request ends it with status 4, 'out of memory'. Files
are as they were, but for the circuits of a batch that were done, and where
'retime --json' lacked memory for its object alone, which is made last.",
    advice: "See the limits of the shell: 'ulimit -v'. 'batch' with fewer --workers has fewer
circuits in memory at once.",
};

pub const DEVICE: Page = Page {
    meaning: "A file or a standard stream can't be opened, created, read or written.",
    rule: "The message names the path, or 'stdin' or 'stdout'. There is no such file or
folder, it may not be read or written by this user, it is a folder, the disk is
full, or nobody reads the pipe any more.",
    advice: "Look at the path: 'ls -l PATH', and at the room on its disk: 'df PATH'. An OUT
that was begun may have a part of the circuit: run again.",
};
