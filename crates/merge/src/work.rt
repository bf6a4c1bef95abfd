// The summed lists in lent work rows: a row of five numbers for each pulse (time, amp, drag), and beside it the place of its bin.
ghost use Rattle.std.specs.Prelude.{◌≡◌, ◌+◌, ◌<◌, ◌≤◌, length, get_or};
ghost use Rattle.merge.specs.Sum.{summed};
ghost use Rattle.merge.specs.Taking.{parts_in};
ghost use Rattle.merge.specs.Work.{row_of_pulse, laid, laid_on, sizes_fit, gathered, gathered_of, no_ends};
ghost use Rattle.merge.specs.Keep.{pulse_in, kept_in, lists_in, span_of};

use super::sum::{is_near, plus};
use super::taking::Taking;
use pulse::list::Pulse;
use quant::complex::Complex;
use quant::quantity::Time;
use tables::Tables;

// Where the rows of each list end; the first begins at 0, each other where the one before it ends.
#[derive(Clone, Copy)]
pub struct Ends {
    pub ends: [usize; 8],
}

// Where the records of a list lie.
#[derive(Clone, Copy)]
pub struct Span {
    pub from: usize,
    pub count: usize,
}

// Sums each list that takes part anew, from the first row on. Other sizes than 8,192 records, rows and marks leave all as it is.
pub fn sum_lists(
    t: Tables,
    taking: Taking,
    pulses: &[Pulse],
    work: &mut [[f64; 5]],
    marks: &mut [usize],
) -> Ends
    ensures { gathered work.new marks.new result ≡ gathered_of t (parts_in taking) pulses.now work.old marks.old }
{
    let mut ends = no_ends();
    if !sizes_fit(pulses.len(), work.len(), marks.len()) {
        return ends;
    }
    let mut at = 0;
    for k in 0..lists_in(taking) {
        let Span { from, count } = span_of(t, taking, k);
        at = sum_list(&pulses[from..from + count], t.time, work, marks, at);
        ends.ends[k] = at;
    }
    ends
}

// Sums a list's records into the rows from `at` on, and tells where they end.
fn sum_list(
    records: &[Pulse],
    tolerance: Time,
    work: &mut [[f64; 5]],
    marks: &mut [usize],
    at: usize,
) -> usize
    requires { (at + length records.now ≤ length work.old) × (at + length records.now ≤ length marks.old) }
    ensures { laid work.new marks.new result ≡ laid_on (summed tolerance.0 records.now) at work.old marks.old }
{
    let mut used = at;
    for p in records {
        used = keep(work, marks, at, used, *p, tolerance);
    }
    used
}

// Adds p to the last of the rows from `from` up to `at`, or appends a row; tells where the rows end.
#[tactic(auto, unfolding(crate::specs::Keep::kept_in))]
pub(crate) fn keep(
    work: &mut [[f64; 5]],
    marks: &mut [usize],
    from: usize,
    at: usize,
    p: Pulse,
    tolerance: Time,
) -> usize
    requires { (from ≤ at) × (at < length work.old) × (at < length marks.old) }
    ensures { laid work.new marks.new result ≡ kept_in from tolerance.0 p (laid work.old marks.old at) }
{
    if from < at {
        let last = at - 1;
        let kept = pulse_in(work[last], marks[last]);
        if kept.bin == p.bin && is_near(kept.time, p.time, tolerance) {
            work[last] = row_of(plus(kept, p));
            return at;
        }
    }
    work[at] = row_of(p);
    marks[at] = p.bin;
    at + 1
}

fn row_of(p: Pulse) -> [f64; 5]
    ensures { result ≡ row_of_pulse p }
{
    let Pulse {
        time,
        amp,
        drag,
        ..
    } = p;
    [time.0, amp.re, amp.im, drag.re, drag.im]
}

// The pulse that a row and its mark stand for.
fn pulse_in(row: [f64; 5], mark: usize) -> Pulse
    ensures { result ≡ pulse_in row mark }
{
    let [time, amp_re, amp_im, drag_re, drag_im] = row;
    Pulse {
        bin: mark,
        time: Time(time),
        amp: Complex {
            re: amp_re,
            im: amp_im,
        },
        drag: Complex {
            re: drag_re,
            im: drag_im,
        },
    }
}

pub(crate) fn sizes_fit(pulses: usize, rows: usize, marks: usize) -> bool
    ensures { result ≡ sizes_fit pulses rows marks }
{
    pulses == 8192 && rows == 8192 && marks == 8192
}

pub(crate) fn no_ends() -> Ends
    ensures { result ≡ no_ends }
{
    Ends { ends: [0; 8] }
}

// A count over 8 has the 8 that are there.
pub(crate) fn lists_in(taking: Taking) -> usize
    ensures { result ≡ lists_in taking }
{
    taking.count.min(8)
}

// The records of list k: none for a place that is none, at most 1,024 for another.
pub(crate) fn span_of(t: Tables, taking: Taking, k: usize) -> Span
    requires { k < 8 }
    ensures { result ≡ span_of t (get_or taking.places k 0) }
{
    let i = taking.places[k];
    if 8 <= i {
        return Span { from: 0, count: 0 };
    }
    Span {
        from: 1024 * i,
        count: t.channels[i].pulses.min(1024),
    }
}
