// A text of lines answered for C, where a file is a number: 1 is standard output and 2 standard error. Of any other number nothing is open here, and the
// answers are passed over.
#![tactic(auto)]

ghost use Rattle.std.specs.Prelude.{◌≡◌, length};
ghost use Rattle.lines.specs.Text.{lines_of};

use std::io;
use std::io::{Stderr, Stdout};

// How many lines the text has. The two handles take no bytes: C passes the text, its length and the number.
#[unsafe(no_mangle)]
pub extern "C" fn skierralu_calls(
    text: &[u8],
    out: i32,
    mut stdout: Stdout,
    mut stderr: Stderr,
) -> usize
    ensures { result ≡ length (lines_of text.now) }
{
    match out {
        1 => command_lines::skierralu_calls(text, &mut stdout),
        2 => command_lines::skierralu_calls(text, &mut stderr),
        _ => command_lines::skierralu_calls(text, &mut io::sink()),
    }
}
