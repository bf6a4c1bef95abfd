// The pulses of one bin, out of all lists that take part, in order of time: a cursor for each list, over the work rows. The Rust's
// `kmerge_by`, with ties by the lists' order.
ghost use Rattle.std.specs.Prelude.{◌≡◌, ◌<◌, ◌≤◌, length};
ghost use Rattle.mixdown.specs.Runs.{InRows, Within, advanced, better, picked_in, pulse_at, moved_on};

use pulse::list::Pulse;
use quant::complex::Complex;
use quant::quantity::Time;

// What is left of one list: its rows from `at` up to `end` whose mark is the bin's place in that list.
#[derive(Clone, Copy)]
pub struct Run {
    pub at: usize,
    pub end: usize,
    pub mark: usize,
    pub factor: f64,
}

// The first `count` are there.
#[derive(Clone, Copy)]
pub struct Runs {
    pub count: usize,
    pub runs: [Run; 8],
}

// The pulse that comes next: its list, and its row.
#[derive(Clone, Copy)]
pub struct Picked {
    pub list: usize,
    pub at: usize,
}

// From the last list to the first, each takes over unless the one picked so far is earlier: so of equal times the first list's is picked.
pub(crate) fn pick(r: Runs, work: &[[f64; 5]], marks: &[usize]) -> Option<Picked>
    requires { (length work.now ≡ 8192) × (length marks.now ≡ 8192) × (r.count ≤ 8) × Within r.runs }
    ensures { result ≡ picked_in work.now marks.now r }
{
    let mut best = None;
    for k in (0..r.count).rev() {
        let run = r.runs[k];
        let at = advance(marks, run.at, run.end, run.mark);
        best = better(best, work, k, at, run.end);
    }
    best
}

// The row at `at` is picked in place of the best so far, where it is one of the list's and the best is not earlier.
fn better(
    best: Option<Picked>,
    work: &[[f64; 5]],
    k: usize,
    at: usize,
    end: usize,
) -> Option<Picked>
    requires { InRows (length work.now) best × (end ≤ length work.now) }
    ensures { result ≡ better work.now k at end best }
{
    if end <= at {
        return best;
    }
    if let Some(kept) = best {
        if work[kept.at][0] < work[at][0] {
            return best;
        }
    }
    Some(Picked { list: k, at })
}

// The first row from `from` on that has the mark, or the end.
pub(crate) fn advance(marks: &[usize], from: usize, end: usize, mark: usize) -> usize
    requires { end ≤ length marks.now }
    ensures { result ≡ advanced marks.now from end mark }
{
    // Kept: where the loop ends is the answer, also where it begins past the end; `from.max(end)` behind a `for` is no plainer.
    let mut at = from;
    while at < end {
        if marks[at] == mark {
            return at;
        }
        at += 1;
    }
    at
}

// The pulse that a work row and its mark stand for.
pub(crate) fn pulse_at(work: &[[f64; 5]], marks: &[usize], at: usize) -> Pulse
    requires { (at < length work.now) × (at < length marks.now) }
    ensures { result ≡ pulse_at work.now marks.now at }
{
    let row = work[at];
    Pulse {
        bin: marks[at],
        time: Time(row[0]),
        amp: Complex {
            re: row[1],
            im: row[2],
        },
        drag: Complex {
            re: row[3],
            im: row[4],
        },
    }
}

// The runs with the pulse that was picked taken off its list.
pub(crate) fn move_on(r: Runs, p: Picked, marks: &[usize]) -> Runs
    requires { (p.list < 8) × (p.at < 8192) × (length marks.now ≡ 8192) × Within r.runs }
    ensures { result ≡ moved_on marks.now r p }
{
    let k = p.list;
    let mut run = r.runs[k];
    run.at = advance(marks, p.at + 1, run.end, run.mark);
    let mut u = r;
    u.runs[k] = run;
    u
}
