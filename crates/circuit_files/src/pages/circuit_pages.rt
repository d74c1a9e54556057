//! The pages of the faults of circuits. Files of other kinds have some of them too.
use crate::pages::page::Page;

pub const BAD_HEADER: Page = Page {
    meaning: "The first line is no header.",
    rule: "The header of a circuit is 'aag' (ASCII) or 'aig' (binary) and five to nine
numbers, M I L O A B C J F, with one space between. A file of certificates
begins with a line 'fretime-cert 1' or 'fretime-cert 2', a witness with '1'.",
    advice: "See that the file is an AIGER file, and not a packed one, BLIF or Verilog.
Of a packed one pipe the text: 'zcat in.aig.gz | fretime retime - out.aig'.
Yosys and ABC write AIGER files by their command write_aiger.
Where each line ends with a carriage return, drop them:
tr -d '\\r' < in.aag > unix.aag",
};

pub const TOO_LARGE: Page = Page {
    meaning: "A count is past its limit.",
    rule: "The greatest variable M of a circuit may be 268435455, its outputs, bad states,
constraints, justice properties, fairness literals and all sizes of the justice
properties together 16777216 each. In certificates no number is past 268435455.
The list of a batch has at most 1048576 lines.",
    advice: "A count of this size is mostly that of a damaged file. Else check some of the
properties at a time, each lot in a file of its own, or cut the list in two.",
};

pub const MAX_INDEX: Page = Page {
    meaning: "A literal, or what the header counts, is past the greatest variable.",
    rule: "The first number of the header, M, is the greatest variable. There may be M
inputs, latches and gates in all, in a binary file there are just as many, and
a literal is at most 2*M + 1.",
    advice: "Give the header the M that the lines need. If a program wrote the file, it was
damaged later, or that program is wrong.",
};

pub const BAD_LINE: Page = Page {
    meaning: "A line isn't of the form that its section wants.",
    rule: "A line of a circuit is numbers in decimal digits with one space between, and no
space at either end: a literal for an input or a property, two or three numbers
for a latch, three for a gate. No empty line stands between. A line of a
stimulus begins with '=' or ':', and then has digits 0 and 1; one of a batch's
list is UTF-8 with one tab; one of a list of kept latches is a place above those
before it; docs/FORMAT.md has those of certificates and witnesses.",
    advice: "Look at the line that begins at the offset. Where each line ends with a
carriage return, drop them: tr -d '\\r' < in.aag > unix.aag",
};

pub const BAD_LITERAL: Page = Page {
    meaning: "A literal that is to be defined is odd, or 0.",
    rule: "A line defines the variable v, from 1 on, by its even literal 2*v. The literal
2*v + 1 is its negation; 0 and 1 are the constants.",
    advice: "Define the even literal, and negate it where it is read.",
};

pub const DEFINED_TWICE: Page = Page {
    meaning: "A variable is defined a second time.",
    rule: "Each variable is that of one input, one latch or one gate at most.",
    advice: "Give the second one a variable of its own, or leave its line out and lower the
count of its section in the header.",
};

pub const UNDEFINED: Page = Page {
    meaning: "A variable is read, and no line defines it.",
    rule: "Each variable that a gate, a next literal or a property reads is that of an
input, a latch or a gate. The file has the fault as a whole, so there is no
offset.",
    advice: "Define the variable, as an input if nothing drives it, or mend the literal that
reads it.",
};

pub const CYCLE: Page = Page {
    meaning: "Gates read one another in a circle.",
    rule: "From a gate back to itself each way passes a latch. The gates of the circle
have the fault together, so there is no offset.",
    advice: "Find the loop in the source: Yosys names the logic of such loops by its
commands check and scc. A register has to stand in it, or it is a mistake.",
};

pub const BAD_RESET: Page = Page {
    meaning: "A latch's reset is neither 0 nor 1 nor the latch's own literal.",
    rule: "The third number of a latch's line is its value at the start: 0, 1, or the
latch's own literal where it isn't initialised.",
    advice: "Write one of the three. A start that depends on a signal has to be made of
gates and an initialised latch that tells the first step.",
};

pub const BAD_DELTA: Page = Page {
    meaning: "A delta of a binary file is too long, or out of range.",
    rule: "A gate of a binary file is two deltas, lhs - rhs0 and rhs0 - rhs1, where lhs is
above rhs0, and rhs0 no less than rhs1. A delta is a sum of groups of 7 bits,
the lowest first, in one to five bytes; all but its last have the top bit set.",
    advice: "The file was damaged, as by a copy that changes ends of lines, or its header
counts what isn't there. Write it anew, or in ASCII, whose lines show more.",
};

pub const TRUNCATED: Page = Page {
    meaning: "The input ends before the last item that is announced.",
    rule: "The header of a circuit counts the items of each section, and a block of
certificates those of its own. A witness ends with a line '.'.",
    advice: "The file was cut off: see whether its writer ended early, or the disk was full.
If all is there, the header counts too many.",
};

pub const BAD_SYMBOL: Page = Page {
    meaning: "A symbol is ill formed, out of range, or stands twice.",
    rule: "After the gates come symbols, a line each: one of the letters i l o b c j f, a
position from 0 up to the count of that section, a space and a name.",
    advice: "Mend the line or leave it out: symbols are names, and no circuit needs them.
Remarks stand after a line 'c'.",
};

pub const TRAILING: Page = Page {
    meaning: "Something follows the last item.",
    rule: "After the gates of a circuit come symbols, and a comment, whose first line is
'c'. After the last line '.' of a witness come comments only.",
    advice: "Put a line 'c' before remarks. If the lines are items, raise the count of their
section in the header.",
};
