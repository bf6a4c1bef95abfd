// Reads a crosstalk sheet on standard input and prints it with its rows in column order, or why it is refused.
#![tactic(auto)]

use std::io;

fn main(rt: HostRuntime) -> io::Result<()> {
    // One byte over the limit shows that a text is too long.
    let mut text = [0u8; 4097];
    let n = input::read_full(&mut rt.stdin(), &mut text)?;
    let mut out = [0u8; 4096];
    if let Ok(size) = sheet_answer::answer(&text[..n], &mut out) {
        rt.write_all(&out[..size])?;
    }
    Ok(())
}
