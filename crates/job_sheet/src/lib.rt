// The sheet that stands in a job: the lines behind `sheet COUNT` are read as they stand, and what they say becomes the crosstalk.
#![tactic(auto)]

ghost use Rattle.std.specs.Prelude.{◌≡◌};
ghost use Rattle.job_sheet.specs.Inset.{sheeted, fewer, Took};

use crosstalk::names::Crosstalk;
use first::first_lines;
use quant::refusal::Answer;
use sheet::read::{Reading, read};

pub mod first;

// The crosstalk of the samplings that follow, and how many lines and bytes the sheet has: the job goes on behind them.
#[derive(Clone, Copy)]
pub struct Taken {
    pub inset: Option<Answer>,
    pub crosstalk: Crosstalk,
    pub lines: u64,
    pub bytes: usize,
}

// `behind` is the job behind the line `sheet COUNT`, `c` the crosstalk so far, with its factors, of which there are at least 64.
pub fn take_sheet(behind: &[u8], count: u64, c: Crosstalk, factors: &mut [f64]) -> Taken
    ensures { Took behind.now count c factors.old result factors.new }
{
    match first_lines(behind, count) {
        Some(n) => {
            let reading = read(&behind[..n], factors);
            sheeted(count, n, c, reading)
        }
        None => fewer(c),
    }
}

// A refused sheet leaves the crosstalk.
fn sheeted(lines: u64, bytes: usize, c: Crosstalk, reading: Reading) -> Taken
    ensures { result ≡ sheeted lines bytes c reading.answer reading.names }
{
    let Reading { answer, names } = reading;
    let crosstalk = match answer {
        Ok(count) => Crosstalk { count, names },
        Err(_) => c,
    };
    Taken {
        inset: Some(answer),
        crosstalk,
        lines,
        bytes,
    }
}

// Nothing is taken.
pub fn fewer(c: Crosstalk) -> Taken
    ensures { result ≡ fewer c }
{
    Taken {
        inset: None,
        crosstalk: c,
        lines: 0,
        bytes: 0,
    }
}
