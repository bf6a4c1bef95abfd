// What a program prints for a sheet. Document 01, "The sheet".
#![tactic(auto)]

ghost use Rattle.std.specs.Prelude.{◌≡◌, ◌≤◌, length, Ok};
ghost use Rattle.sheet.specs.Sheet.{printed_of, sheet_of, sheet_text};
ghost use Rattle.sheet.specs.Puts.{Put};
ghost use Rattle.sheet_answer.specs.Answer.{Answered, refused_text};

use naming::Name;
use put::{put, put_byte, put_decimal};
use quant::refusal::{Answer, Refusal, number};
use sheet::print::print;
use sheet::read::read;

pub mod put;

// Puts what is printed at the start of `out`, and answers how many bytes it is. With less room than 4,096 bytes: 13, and the bytes stay.
pub fn answer(text: &[u8], out: &mut [u8]) -> Answer
    ensures { Answered text.now out.old result out.new }
{
    if out.len() < 4096 {
        return Err(Refusal::WrongSize.at(0));
    }
    let mut matrix = [0.0f64; 64];
    let reading = read(text, &mut matrix);
    let size = match reading.answer {
        Ok(count) => sheet_back(count, reading.names, &matrix, out),
        Err(refusal) => refused(refusal.why, refusal.place, out),
    };
    Ok(size)
}

// A sheet that was read, which `print` never refuses.
fn sheet_back(count: usize, names: [Name; 8], matrix: &[f64], out: &mut [u8]) -> usize
    requires { printed_of count names matrix.now (length out.old) ≡ Ok (length (sheet_text (sheet_of count names matrix.now))) }
    ensures { Put (sheet_text (sheet_of count names matrix.now)) out.old 0 result out.new }
{
    match print(count, names, matrix, out) {
        Ok(size) => size,
        Err(_) => 0,
    }
}

// Two lines, in decimal.
fn refused(r: Refusal, line: usize, out: &mut [u8]) -> usize
    requires { 4096 ≤ length out.old }
    ensures { Put (refused_text r line) out.old 0 result out.new }
{
    let first = put(b"refused=", out, 0);
    let feed = put_decimal(number(r), out, first);
    let second = put(b"\nline=", out, feed);
    let last = put_decimal(line, out, second);
    put_byte(b'\n', out, last)
}
