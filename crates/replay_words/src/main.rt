// Reads words on standard input, one to a line, and prints what each is as a number of a job: the 16 hex digits of the double, or `none`. Stored
// beside it are words, and what Python's `float` and `float.fromhex` answer. `tools/words` prints the words anew, `tools/words answers` the answers.
#![tactic(auto)]

use decimal::number::read;
use decimal::print::pattern;
use std::io;
use words::end_of;

fn main(rt: HostRuntime) -> io::Result<()> {
    let mut text = lines::text::room();
    let n = input::read_full(&mut rt.stdin(), &mut text)?;
    if n == text.len() {
        return println!(rt; "input too long");
    }
    each(&rt, &text[..n])
}

fn each(rt: &impl Print, text: &[u8]) -> io::Result<()> {
    let mut at: usize = 0;
    // Kept: bytes have no `split`, and a text parted in two at each line feed is no plainer.
    while at < text.len() {
        let end = end_of(text, at);
        answer(rt, &text[at..end])?;
        at = end + 1;
    }
    Ok(())
}

fn answer(rt: &impl Print, word: &[u8]) -> io::Result<()> {
    match read(word) {
        Some(x) => println!(rt; "{:016x}", pattern(x)),
        None => println!(rt; "none"),
    }
}
