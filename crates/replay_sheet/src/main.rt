// Reads many sheets on standard input, each after its length (two bytes, high first), and answers to each as `sheet_print` does, then
// with a line `--`. `compare/sheet_damage` makes such a list, and what must be printed.
#![tactic(auto)]

ghost use Rattle.std.specs.Prelude.{◌<◌};

use std::io;

fn main(rt: HostRuntime) -> io::Result<()> {
    let mut text = lines::text::room();
    let n = input::read_full(&mut rt.stdin(), &mut text)?;
    if n == text.len() {
        return println!(rt; "input too long");
    }
    each(&rt, &text[..n])
}

fn each(rt: &impl Print, list: &[u8]) -> io::Result<()> {
    let mut at: usize = 0;
    // Kept: each sheet says where the next one starts.
    while at < list.len() {
        let start = (at + 2).min(list.len());
        let end = (start + size_at(list, at)).min(list.len());
        show(rt, &list[start..end])?;
        at = end;
    }
    Ok(())
}

// An answer, and its end.
fn show(rt: &impl Print, text: &[u8]) -> io::Result<()> {
    let mut out = [0u8; 4096];
    if let Ok(size) = sheet_answer::answer(text, &mut out) {
        rt.write_all(&out[..size])?;
    }
    println!(rt; "--")
}

// The length that stands at a place, 0 where the list ends before.
fn size_at(list: &[u8], at: usize) -> usize
    ensures { result < 65536 }
{
    if list.len() < 2 {
        return 0;
    }
    if list.len() - 2 < at {
        return 0;
    }
    u16::from_be_bytes([list[at], list[at + 1]]) as usize
}
