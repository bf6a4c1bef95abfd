// The first lines of a text, with their line feeds.
#![tactic(auto)]

ghost use Rattle.std.specs.Prelude.{◌≡◌, ◌+◌, ◌<◌, length, drop};
ghost use Rattle.job_sheet.specs.First.{lines_bytes, first_of};

use lines::text::line_end;

// The first `count` lines. A last line without its line feed is a line.
pub(crate) fn first_lines(text: &[u8], count: u64) -> Option<usize>
    ensures { result ≡ first_of count text.now }
{
    let mut at: usize = 0;
    for _ in 0..count {
        if text.len() <= at {
            return None;
        }
        at = behind_line(text, at);
    }
    Some(at)
}

// Where what is behind the line at a place starts.
fn behind_line(text: &[u8], at: usize) -> usize
    requires { at < length text.now }
    ensures { result ≡ at + lines_bytes 1 (drop at text.now) }
{
    let end = line_end(text, at);
    if end < text.len() { end + 1 } else { end }
}
