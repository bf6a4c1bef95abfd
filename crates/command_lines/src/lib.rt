// Lines of commands read, run and answered: what the program `replay_calls` does with its text, and what `compare/bench` times. A line is a
// letter and words, each 16 lowercase hex digits after one space: the bits of a double, a whole number (a choice is 0 or 1), or a name's
// three numbers (NAME: first, second, len).
//
//     t AMP TIME OVERSIZE                          fresh tables, with their tolerances; no commands and no crosstalk
//     c NAME BASE DELTA PHASE                      a channel
//     s NAME                                       a shape
//     p START SPAN NAME SHAPED NAME AMPLITUDE WIDTH PLATEAU DRAG FREQUENCY PHASE FLEXIBLE
//     h START SPAN NAME NUMBER                     ShiftPhase; H SetPhase, f ShiftFreq, F SetFreq
//     w START SPAN NAME NAME                       SwapPhase
//     b START SPAN                                 Barrier
//     x                                            a call: the commands are run, and what it comes to is told
//     X                                            the same, and no row is lent for the bins
//     r                                            a call of which only the answer is told
//     y                                            the same; tables and commands stay, so that the next is the same call again
//     n NAME                                       a name of the crosstalk matrix
//     v FACTOR                                     a factor of it, row by row
//     m NAME RATE DELAY LEVEL ROWS I Q SCRATCH FIRST SECOND FROM
//
// `m` samples a channel. LEVEL is 30 more than the align level; I, Q and SCRATCH are the lengths of the rows and of the scratch; every sample of
// the rows is FIRST or SECOND before. At most 65,537 samples are lent, and 64 factors.
//
// Printed: `?` for a line that cannot be read; the number of each addition that is refused; a call's number (0: none) and count, then each
// channel, the bins and the records; of a sampling the number, the count, and up to 256 samples of each row, from FROM on.
//
//     a NUMBER
//     x NUMBER COUNT
//     c BASE DELTA PHASE BINS PULSES
//     b SHAPE WIDTH PLATEAU GLOBAL LOCAL
//     r BIN TIME AMP.RE AMP.IM DRAG.RE DRAG.IM
//     m NUMBER COUNT
//     i SAMPLE ..
//     q SAMPLE ..
#![tactic(auto)]

ghost use Rattle.std.specs.Prelude.{◌≡◌, length};
ghost use Rattle.lines.specs.Text.{lines_of};

mod line;
mod show;
mod state;
pub mod walk;

use std::io::Write;

// For the clock: a text answered, and how many lines it has.
pub fn skierralu_calls<W: Write>(text: &[u8], out: &mut W) -> usize
    ensures { result ≡ length (lines_of text.now) }
{
    walk::walk(text, out)
}
