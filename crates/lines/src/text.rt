// A text as lines, and the room that it is read into.
ghost use Rattle.std.specs.Prelude.{◌≡◌, ◌+◌, length, drop, replicate};
ghost use Rattle.lines.specs.Text.{line_length};

// Room for a list: 1 MiB. A list that fills it may have been cut, and is not judged.
pub fn room() -> [u8; 1048576]
    ensures value { 1048576 ≡ length result }
    ensures value_2 { result ≡ replicate 1048576 0 }
{
    [0; 1048576]
}

// Where the line that starts at `at` ends: at its line feed, or at the end of the text. Past that end it is `at` itself.
pub fn line_end(text: &[u8], at: usize) -> usize
    ensures { result ≡ at + line_length (drop at text.now) }
{
    for i in at..text.len() {
        if text[i] == b'\n' {
            return i;
        }
    }
    at.max(text.len())
}
