// Reads operands on standard input and prints our answers. Stored beside it are operands, and what the processor, the power series and the Rust
// answer. `tools/vectors`, `tools/series` and `compare/run replays` print the operands anew, in this order, and with the word `answers` the
// answers. A line is a letter and words, each 16 lowercase hex digits after one space: the bits of a double, or a whole number.
//
//     m A B C                                      A * B + C, rounded once
//     u X                                          the least whole number at or above X
//     r X                                          X less a whole multiple of TAU, at most PI in size
//     l X STEP I                                   point I of the first 64 from X on, STEP apart
//     c X LOW HIGH                                 1 where the cosine of X lies between LOW and HIGH, both counted, else 0; s the sine
//     a TIME RATE LEVEL                            CODE START OFFSET: where a pulse starts. LEVEL is 20 more than the align level
//     p BASE DELTA PHASE NUMBER TIME               CODE BASE DELTA PHASE: ShiftPhase; P SetPhase, f ShiftFreq, F SetFreq
//     w BASE DELTA PHASE BASE DELTA PHASE TIME     CODE BASE DELTA PHASE BASE DELTA PHASE: SwapPhase
//
// Printed: the letter and the answer's words. CODE is 0 or the refusal's number; START and OFFSET are 0 there, and oscillators as they came.
// A NaN is printed as 7ff8000000000000, a line that cannot be read as `?`.
#![tactic(auto)]

mod answer;

use std::io;
use words::end_of;

fn main(rt: HostRuntime) -> io::Result<()> {
    let mut text = lines::text::room();
    let n = input::read_full(&mut rt.stdin(), &mut text)?;
    if n == text.len() {
        return println!(rt; "input too long");
    }
    each(&rt, &text[..n])
}

fn each(rt: &impl Print, text: &[u8]) -> io::Result<()> {
    // Kept: bytes have no `split`, and a text parted in two at each line feed is no plainer.
    let mut at: usize = 0;
    while at < text.len() {
        let end = end_of(text, at);
        answer::answer(rt, &text[at..end])?;
        println!(rt)?;
        at = end + 1;
    }
    Ok(())
}
