//! The texts of the help about the program and each command; what it says of an argument stands
//! with the argument. Nothing is proved of texts: tests compare what is printed.
pub(crate) const ABOUT: &str = "Moves the latches of a sequential circuit so that fewer are left";

pub(crate) const LONG_ABOUT: &str =
    "Moves the latches of a sequential circuit so that fewer are left.

Circuits are files in the formats of AIGER 1.9, ASCII (aag) or binary (aig).

'-' is standard input when a file is read, and standard output when a file is
written. A file of that name is './-'.

What is written has a file of its own, by whatever paths files are named. A
circuit may take the place of the one that it is made of, and of no other.";

pub(crate) const EXAMPLE: &str = "To make a circuit: retime, backward, enables, batch, convert.
To look at one: stat, sim, same, dot, explain.
To check the frames of a retiming: verify.
About maps of states: check, miter, product, lift, witness.

Example:
  fretime retime counter.aag smaller.aag

'fretime help COMMAND' says more.";

pub(crate) const RETIME_ABOUT: &str =
    "Moves latches forward over gates, frame by frame, until none helps";

pub(crate) const RETIME_LONG_ABOUT: &str =
    "Reads a circuit, cleans it, moves latches forward over gates, frame by frame, as
long as that leaves fewer, and writes it.

Only latches with a known reset (0 or 1) move. A netlist from RTL without
initial values has none, and nothing moves then: give the registers initial
values, or, if the reset sequence makes that right, set them to zero
(`setundef -init -zero` in Yosys, before `write_aiger`).

With --merge, latches that always agree, or that never change, are merged before
the first frame, and again where the frames end. It finds logic that is there
twice, also if it was built differently, and features that are tied off. What a
bounded search doesn't show stays. A merged latch has more readers, so here and
there fewer can move.

With --classes the latches that are merged are those that FILE lists before its
first frame, and no others: certificates as --cert writes them, of this IN, from
an earlier run, another tool or a script. They are judged as 'verify' judges
them. What isn't shown to agree is refused, and nothing is written.

A move makes paths longer: gates from behind a row of latches then stand in
front of it. With --no-longer no path of OUT has more gates than the longest one
of IN; with --levels no path gets more than n gates, or than the longest one of
IN. Each frame takes the least set of all gates if it keeps the bound, else the
least of those within it.

OUT is created once IN has been read and retimed: a circuit that is refused
leaves OUT as it was.

With --cert, FILE gets a certificate of each frame, once OUT is written: 'verify
IN FILE' checks from it that no other set of gates would have left fewer
latches.

With --map, MAP gets a circuit whose inputs are the latches of IN and whose
outputs are those of OUT: step for step each latch of OUT holds what its output
says, wherever the constraints of MAP are 1, which they always are. So a SAT
solver can check the run, and what is proved of OUT is carried back to IN.
Nothing is written if MAP would have too many variables.

Where OUT, MAP or FILE is '-', standard output, the lines that are printed go to
standard error.

Where standard error is a terminal, one line of it shows how far a run of over a
second is, and is gone at the end.";

pub(crate) const RETIME_EXAMPLE: &str = "Example:
  fretime retime counter.aag smaller.aag

It prints a line for each frame that was taken, and then the numbers of all
latches:
  frame 1: 2 to 1
  latches 2 to 1

In a pipe:
  zcat counter.aig.gz | fretime retime - - | gzip > smaller.aig.gz

Exit status: 0 done, 1 IN is no circuit or has no such latch, 2 command line,
3 device, 4 out of memory.";

pub(crate) const BACKWARD_ABOUT: &str =
    "Moves latches backward over gates, frame by frame, until none helps";

pub(crate) const BACKWARD_LONG_ABOUT: &str =
    "Reads a circuit, moves latches from behind gates to before them, frame by frame,
as long as that leaves fewer, and writes it. IN is best what 'retime' wrote.

Free latches stay where they are, and so do held ones, and gates that a property
reads. What is found is checked as 'check OUT IN MAP' does it. If the check
doesn't show that IN is a retiming of OUT, OUT is IN, and a line says so.

With --map, MAP gets a circuit whose inputs are the latches of OUT and whose
outputs are those of IN: step for step each latch of IN holds what its output
says. The direction is that of 'check OUT IN MAP' and 'miter OUT IN MAP MITER'.

With --enables registers move then that hold under one condition or have one
reset, those together, as 'enables' moves them forward. If the check doesn't
show that, fewer move and a line says so. In the place of a line for each frame
the number of frames is printed. IN is best what 'enables' wrote.

With --no-longer no path of OUT has more gates than the longest one of IN; with
--levels no path gets more than n gates, or than the longest one of IN.

It isn't promised that no other move leaves fewer latches.

OUT is created once IN has been read and its latches are moved: a circuit that
is refused leaves OUT as it was. If OUT or MAP is '-', standard output, the
lines that are printed go to standard error.";

pub(crate) const BACKWARD_EXAMPLE: &str = "Example:
  fretime retime counter.aag middle.aag
  fretime backward middle.aag smaller.aag --map smaller.map
  fretime check smaller.aag middle.aag smaller.map

It prints a line for each frame that was taken, and then the numbers of all
latches:
  frame 1: 24 to 13
  latches 24 to 13

In a pipe:
  fretime retime in.aig - | fretime backward - out.aig

Registers with an enable or a reset, forward and then backward:
  fretime enables in.aig - | fretime backward --enables - out.aig

Exit status: 0 done, 1 IN is no circuit or has no such latch, 2 command line,
3 device, 4 out of memory.";

pub(crate) const ENABLES_ABOUT: &str =
    "Moves registers with an enable or a reset forward over gates, too";

pub(crate) const ENABLES_LONG_ABOUT: &str =
    "Reads a circuit, moves latches forward over gates that 'retime' leaves in place,
as long as that leaves fewer, and writes it. IN is best what 'retime --merge'
wrote.

A register with an enable reads itself, so 'retime' can't move it. Registers
that hold under one condition move together over gates that read them alone, and
the new ones hold under that condition, too. So do registers with one reset. If
some of them always agree they are merged.

Held latches and free ones stay where they are. OUT is drafted, and what is
drafted is checked as 'check IN OUT MAP' does it. If the check doesn't show that
OUT is a retiming of IN, none are merged. If that isn't shown either, half of
its frames are taken, and so on. If nothing is shown, OUT is IN, and a line says
so.

With --map, MAP gets a circuit whose inputs are the latches of IN and whose
outputs are those of OUT: step for step each latch of OUT holds what its output
says, wherever the constraints of MAP are 1, which they always are.

With --no-longer no path of OUT has more gates than the longest one of IN; with
--levels no path gets more than n gates, or than the longest one of IN.

It isn't promised that no other move leaves fewer latches.

OUT is created once IN has been read and its latches are moved: a circuit that
is refused leaves OUT as it was. If OUT or MAP is '-', standard output, the
lines that are printed go to standard error.";

pub(crate) const ENABLES_EXAMPLE: &str = "Example:
  fretime retime --merge stalled.aag middle.aag
  fretime enables middle.aag smaller.aag --map smaller.map
  fretime check middle.aag smaller.aag smaller.map

It prints how many frames were taken, and the numbers of all latches:
  frames 1
  latches 2 to 1

In a pipe:
  fretime retime --merge in.aig - | fretime enables - out.aig

Exit status: 0 done, 1 IN is no circuit or has no such latch, 2 command line,
3 device, 4 out of memory.";

pub(crate) const BATCH_ABOUT: &str = "Retimes the circuits of a list, many at once";

pub(crate) const BATCH_LONG_ABOUT: &str =
    "Reads a list of circuits, retimes each as 'retime' does, and writes each to its
file.

A line of LIST is the path of a circuit, a tab, and the path of the file to
write. All circuits are read before the first is retimed, so a line may write
what a line reads. The workers take them one at a time; what is written is the
same for every number of workers. If two lines write one file, the later circuit
stands. In a line '-' is a file of that name.";

pub(crate) const BATCH_EXAMPLE: &str =
    "It prints a line for each circuit, in the order of the list, once its file is
written:
  1 done 2 to 1
  2 refused BadLine at 18
  3 memory

Exit status: 0 all are done, else 1 or 4 by the first that is refused or lacked
memory; 1 LIST is no list, 2 command line, 3 device, 4 out of memory.";

pub(crate) const VERIFY_ABOUT: &str = "Checks the certificates that 'retime --cert' wrote";

pub(crate) const VERIFY_LONG_ABOUT: &str =
    "Reads a circuit, and the certificates of its frames, and checks each against the
circuit of its frame, without any flow.

'yes' says that no set of gates leaves fewer latches than the certificate's. The
circuit of the next frame is made from IN by the certificate's set. Say which
latches were held, and give --levels and --no-longer, as for 'retime'. Under a
bound on levels 'yes' says that no set of all gates leaves fewer, or of those
within it, and that no path gets longer than the bound by the move.

If CERT lists merged latches, it is checked first that each always has the value
of what it reads as. For a file that lists none, give --merge as for 'retime'.

With --out it compares OUT with what 'retime' writes of the circuit that all of
them make of IN, byte for byte.";

pub(crate) const VERIFY_EXAMPLE: &str = "Example:
  fretime retime counter.aag smaller.aag --cert counter.cert
  fretime verify counter.aag counter.cert

It prints a line for each certificate, from 0, and whether the last circuit can
be left with fewer latches ('open') or not:
  block 0: yes, count 1
  block 1: yes, count 1
  end certified
With --out 'out same' follows, or 'out differs at' the offset of a byte.

Exit status: 0 all are confirmed, 1 a file is refused or IN has no such latch,
2 command line, 3 device, 4 out of memory, 5 a certificate is rejected or OUT
differs.";

pub(crate) const CHECK_ABOUT: &str =
    "Checks a circuit against what was made of it, with a map or without";

pub(crate) const CHECK_LONG_ABOUT: &str =
    "Reads a circuit and the circuit that was made of it, and checks that all
properties of both are the same at each step, whoever made the files. The third
file is a map of the states of the one to those of the other, as 'retime --map'
writes it. Without it both circuits are looked at side by side, over the same
inputs: it is guessed which latches always agree, and that is checked. So the
results of tools that merge latches or leave some out need no map; those that
move latches do.

Gates with the same fan-ins are taken for one, and so are two literals that a
constraint of MAP says to be equal. If two literals that must be equal stay two,
it is asked what follows gate by gate if one is 1 and the other isn't; with MAP
cases are made then, in which inputs and latches of IN are 0 or 1. What is open
after that is not shown; a SAT solver may still show it, as docs/STATE_MAPS.md
says.

Without MAP the free latches of OUT are those of IN, in their order. With --kept
they are those at the places in LIST, from 0 among the free latches of IN: what
'retime --json' gives as 'free_kept', a line each.";

pub(crate) const CHECK_EXAMPLE: &str = "Example:
  fretime retime counter.aag smaller.aag --map counter.map
  fretime check counter.aag smaller.aag counter.map

It prints 'retiming' if MAP shows that OUT is a retiming of IN, and 'equal' if
there is no MAP and each property is shown to be the same. Else it prints the
first that isn't shown, by its number from 0:
  not shown: next latch 3

At step 0 that is a constraint of MAP or a latch of OUT ('reset'). Else it is a
constraint that may end to hold ('keep'), a latch of OUT ('next'), or an output,
bad, constraint, justice or fairness of OUT ('read'). Without MAP it is one of
these last. If MAP has other latches than IN and OUT, it is refused as no map.

Exit status: 0 a retiming or equal, 1 a file is refused, MAP is no map or does
not fit, or shapes differ, 2 command line, 3 device, 4 out of memory, 5 not
shown.";

pub(crate) const MITER_ABOUT: &str = "Writes what a map of states has to meet as a circuit";

pub(crate) const MITER_LONG_ABOUT: &str =
    "Reads a circuit, the circuit that was made of it, and a map of the states of the
one to those of the other, as 'retime --map' writes it, and writes a circuit
without latches that is 1 if the map fails, in the format of MAP if none
is chosen. Its inputs are those of IN, then one for what each latch of IN holds.

It has four outputs. 'reset' is 1 if from a first state of IN a constraint of
MAP doesn't hold or MAP gives no first state of OUT; the others if the
constraints of MAP hold: 'keep' if after a step they don't, 'next' if MAP
then gives another state than the step of OUT, 'read' if a property of OUT
isn't that of IN. So MAP shows that OUT is a retiming of IN if no output is
ever 1, as any SAT solver or equivalence checker can find.";

pub(crate) const MITER_EXAMPLE: &str = "Example:
  fretime retime counter.aag smaller.aag --map counter.map
  fretime miter counter.aag smaller.aag counter.map counter.aig --binary

MITER is made at its first byte: if something is refused, it stays as it was.
If MAP has other latches than IN and OUT, it is refused as no map. 'shapes
differ' is printed if IN and OUT differ in their inputs or properties.

Exit status: 0 done, 1 a file is refused, MAP is no map, or shapes differ,
2 command line, 3 device, 4 out of memory.";

pub(crate) const PRODUCT_ABOUT: &str =
    "Writes two circuits side by side, with a proof that they agree";

pub(crate) const PRODUCT_LONG_ABOUT: &str =
    "Reads a circuit, the circuit that was made of it, and a map of the states of the
one to those of the other, as 'retime --map' writes it, and writes a model and a
certificate for it, in the format of MAP if none is chosen.

MODEL is IN and OUT side by side, under the same inputs. It is bad if a property
of theirs differs. CERT is the same with an inductive invariant by MAP: it is a
witness circuit for MODEL, as of 'lift'. If MAP shows that OUT is a retiming of
IN, CERT passes the five checks for MODEL, as any SAT solver can find.";

pub(crate) const PRODUCT_EXAMPLE: &str = "Example:
  fretime retime counter.aag smaller.aag --map counter.map
  fretime product counter.aag smaller.aag counter.map model.aig cert.aig

MODEL is made at its first byte, and then CERT: if something is refused, they
stay as they were. If MAP has other latches than IN and OUT, it is refused as no
map. 'shapes differ' is printed if IN and OUT differ in their inputs or
properties.

Exit status: 0 done, 1 a file is refused, MAP is no map, or shapes differ,
2 command line, 3 device, 4 out of memory.";

pub(crate) const LIFT_ABOUT: &str =
    "Carries a proof of a retimed circuit back to what it was made of";

pub(crate) const LIFT_LONG_ABOUT: &str =
    "Reads a circuit, the circuit that was made of it, a map of the states of the one
to those of the other, as 'retime --map' writes it, and a witness circuit for
the second: what a model checker hands in to show that no bad state is reached.
It writes the witness circuit for the first, in the format of CERT if none
is chosen.

A witness circuit is a certificate of the hardware model checking competition. A
name '= 12' of an input or a latch says that it is the one of OUT with the
literal 12; if no name says so, the first ones are those of OUT, in order.
RESULT has the inputs and latches of IN, and then CERT's own. Literals are those
of binary files: 'convert' gives IN these, if another tool wrote it in ASCII.

With --back MAP leads from OUT to IN, as 'backward --map' writes it, and the
latches of OUT become RESULT's own, before CERT's. IN may have no free latch
then.

Where MAP is a map and CERT passes the five checks for OUT, RESULT passes them
for IN, as any SAT solver can find; neither is checked here. 'check' checks the
map.";

pub(crate) const LIFT_EXAMPLE: &str = "Example:
  fretime retime ring.aag less.aag --map ring.map
  fretime lift ring.aag less.aag ring.map less.cert ring.cert

Back over latches that moved backward:
  fretime backward less.aag least.aag --map least.map
  fretime lift --back less.aag least.aag least.map least.cert less.cert

RESULT is made at its first byte: if something is refused, it stays as it was.
If MAP has other latches than IN and OUT, it is refused as no map. 'shapes
differ' is printed if IN and OUT differ in their inputs or properties, or with
--back if IN has a free latch.

Exit status: 0 done, 1 a file is refused, MAP is no map, CERT names what OUT
hasn't, or shapes differ, 2 command line, 3 device, 4 out of memory.";

pub(crate) const STAT_ABOUT: &str = "Counts what a circuit has, as it was read";

pub(crate) const STAT_EXAMPLE: &str =
    "Latches are free if they have no known reset; free latches never move.

With --merge two last lines say how many latches 'retime --merge' would merge,
and how many of these never change:
  merged 2
  constant 1

Exit status: 0 done, 1 IN is no circuit, 2 command line, 3 device, 4 out of
memory.";

pub(crate) const CONVERT_ABOUT: &str =
    "Writes a circuit as it was read; without a flag in the other format";

pub(crate) const SIM_ABOUT: &str = "Prints the values of all properties under a stimulus";

pub(crate) const SIM_EXAMPLE: &str =
    "A stimulus is lines: '=' with a digit for each free latch begins a sequence, ':'
with a digit for each input is its next step.

Without one at hand: --random 256 --steps 1000. The digits follow from the seed
alone; more sequences, or longer ones, begin with these, and inputs are the same
whatever latches are free.

With --vcd the values of inputs and latches are written, too, for a viewer of
waves: a scope for each sequence.

Exit status: 0 done, 1 a file is refused or so many steps take too much memory,
2 command line, 3 device, 4 out of memory.";

pub(crate) const SAME_ABOUT: &str = "Finds the first difference of two circuits under a stimulus";

pub(crate) const SAME_EXAMPLE: &str =
    "It prints 'same', or the first sequence, step and place, from 0, at which the
circuits differ.

Without a stimulus at hand: --random 256 --steps 1000. 'sim' with the same
numbers takes the same sequences.

If 'retime' left free latches out, B has fewer. LIST has the place of each of
B's among those of A, from 0, a line each, in order:
  fretime retime a.aag b.aag --json | jq '.free_kept[]' > kept
  fretime same a.aag b.aag --kept kept --random 256

Exit status: 0 same, 1 a file is refused, shapes differ or so many steps take
too much memory, 2 command line, 3 device, 4 out of memory, 5 they differ.";

pub(crate) const DOT_ABOUT: &str = "Writes a picture of a circuit, for Graphviz";

pub(crate) const DOT_LONG_ABOUT: &str =
    "Reads a circuit, and writes it as text in DOT, the language of Graphviz: `dot
-Tsvg OUT` draws it.

Inputs are tags, latches boxes with their reset beside them, free latches
dashed, held ones with a double line; gates are circles, gray if no latch can
move over them; outputs and other properties are notes. An edge with a dot is a
negation. Names are those of the file.

With --frame the circuit is cleaned first, and merged if --merge is given, as
'retime' does; the gates over which 'retime' moves latches next, under the bound
if one is given, are shaded, and what holds a latch afterwards has a bold line.

A circuit of over 2,000 nodes is refused, but for a neighbourhood: --around NAME
draws what is at most so many edges away from the input, latch or property with
the name. `dot` may take long from some 300 nodes on; `sfdp` draws those too.";

pub(crate) const DOT_EXAMPLE: &str = "Example:
  fretime dot counter.aag counter.dot --frame
  dot -Tsvg counter.dot > counter.svg

Exit status: 0 done, 1 IN is no circuit, has no such latch, nothing called NAME
or too many nodes, 2 command line, 3 device, 4 out of memory.";

pub(crate) const WITNESS_ABOUT: &str =
    "Carries a witness of a retimed circuit back to what it was made of";

pub(crate) const WITNESS_LONG_ABOUT: &str =
    "Reads a circuit, the circuit that 'retime' wrote of it, and a witness that a
model checker found for that one, and prints the witness for the first.

Both circuits are simulated, with 0 for each x: each property of the witness has
to fail first at the same step in both. Latches with a known reset hold it, free
latches that OUT has hold what they did there, and the others 0. The inputs are
the same. What is printed are the values that were simulated, without an x. Give
--merge as for 'retime': which free latches OUT has may rest on it.";

pub(crate) const WITNESS_EXAMPLE: &str = "Example:
  fretime retime counter.aag smaller.aag
  fretime witness counter.aag smaller.aag smaller.cex

A witness is lines: '1', the properties ('b0'), a value 0, 1 or x for each
latch, for each step a value for each input, and '.'. After the printed one a
comment says at which step each property fails:
  c b0 holds at step 3

Exit status: 0 done, 1 a file is refused or shapes differ, 2 command line,
3 device, 4 out of memory, 5 a property doesn't fail.";

pub(crate) const EXPLAIN_ABOUT: &str = "Says what a fault is, and what to do";

pub(crate) const EXPLAIN_LONG_ABOUT: &str =
    "Prints the page of a fault that a message names: what it is, the rule that is
broken, a smallest file that has it, and what to do.";

pub(crate) const EXPLAIN_EXAMPLE: &str = "Example:
  fretime explain MaxIndex

Faults of circuits, and some of them of other files too: BadHeader, TooLarge,
MaxIndex, BadLine, BadLiteral, DefinedTwice, Undefined, Cycle, BadReset,
BadDelta, Truncated, BadSymbol, Trailing. Of a stimulus or a witness: Width,
TooMany, NoSuchProperty. Of random sequences: TooManySteps. Of names and
pictures: NoSuchName, NoSuchLatch, TooManyNodes. Of maps and witness circuits:
NotAMap, NoSuchLiteral. Of two circuits: ShapesDiffer. Of certificates:
NotClosed, BadRoute, UsedTwice, CountDiffers, TooLong, Misread, NotShown. Of a
run: NoMemory, Device. What a message says stands for a name too: 'shapes
differ', 'out of memory', 'device'.

Exit status: 0 done, 2 command line, or there is no such fault, 3 device, 4 out
of memory.";
