// Reads lines of commands on standard input (crates/command_lines/src/lib.rt) and answers them. `compare/commands` and `compare/sampling` make
// such lines, and what the Rust comes to; some of both are stored beside this program.
#![tactic(auto)]

use std::io;

fn main(rt: HostRuntime) -> io::Result<()> {
    let mut text = lines::text::room();
    let n = input::read_full(&mut rt.stdin(), &mut text)?;
    if n == text.len() {
        return println!(rt; "input too long");
    }
    command_lines::walk::walk(&text[..n], &mut rt.stdout());
    Ok(())
}
