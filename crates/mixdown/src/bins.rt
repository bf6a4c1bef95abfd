// The bins of the lists that take part: where a bin stands in each, and whether it has appeared before.
ghost use Rattle.std.specs.Prelude.{◌≡◌, ◌<◌, ◌≤◌, ◌+◌, ◌*◌, length, take};
ghost use Rattle.commands.specs.Play.{rows_of};
ghost use Rattle.merge.specs.Taking.{parts_in};
ghost use Rattle.mixdown.specs.Runs.{Within};
ghost use Rattle.mixdown.specs.Bins.{is_among, all_rows};
ghost use Rattle.mixdown.specs.Starts.{bins_held, target_of, run_for, runs_for_from, Ended};

use super::runs::{Run, Runs, advance};
use merge::taking::Taking;
use merge::work::Ends;
use pulse::bin::{head_in, place};
use tables::Tables;

// How many bins channel i has.
pub(crate) fn bins_held(t: Tables, i: usize) -> usize
    ensures { result ≡ bins_held t i }
{
    if 8 <= i {
        return 0;
    }
    t.channels[i].bins.min(64)
}

// Where a bin stands among those of one list.
pub(crate) fn place_in(t: Tables, bins: &[[f64; 77]], i: usize, row: [f64; 77]) -> Option<usize>
    requires { length bins.now ≡ 512 }
    ensures { result ≡ target_of (rows_of t bins.now i) row }
{
    let many = bins_held(t, i);
    if many == 0 {
        return None;
    }
    let first = 64 * i;
    let at = place(head_in(row), &row[5..77], &bins[first..first + many]);
    if at < many {
        return Some(at);
    }
    None
}

// Whether one of the first `k` lists has the bin.
pub(crate) fn appeared(
    t: Tables,
    taking: Taking,
    bins: &[[f64; 77]],
    k: usize,
    row: [f64; 77],
) -> bool
    requires { (length bins.now ≡ 512) × (taking.count ≤ 8) × (k ≤ taking.count) }
    ensures { result ≡ is_among row (all_rows t bins.now (take k (parts_in taking))) }
{
    for j in 0..k {
        if place_in(t, bins, taking.places[j], row).is_some() {
            return true;
        }
    }
    false
}

// The runs of a bin: each list from its first pulse of the bin on.
pub(crate) fn runs_for(
    t: Tables,
    taking: Taking,
    ends: Ends,
    bins: &[[f64; 77]],
    marks: &[usize],
    row: [f64; 77],
) -> Runs
    requires { (length bins.now ≡ 512) × (length marks.now ≡ 8192) × (taking.count ≤ 8) × Ended ends.ends }
    ensures { (take result.count result.runs ≡ runs_for_from t bins.now marks.now row 0 (parts_in taking) ends.ends) × (result.count ≤ 8) × Within result.runs }
{
    let mut runs = [Run {
        at: 0,
        end: 0,
        mark: 0,
        factor: 0.0,
    }; 8];
    let mut begin: usize = 0;
    for k in 0..taking.count {
        let end = ends.ends[k];
        let found = place_in(t, bins, taking.places[k], row);
        runs[k] = run_for(marks, found, begin, end, taking.factors[k]);
        begin = end;
    }
    Runs {
        count: taking.count,
        runs,
    }
}

// A list whose rows stand from `begin` to `end`.
fn run_for(marks: &[usize], found: Option<usize>, begin: usize, end: usize, factor: f64) -> Run
    requires { end ≤ length marks.now }
    ensures { result ≡ run_for marks.now found begin end factor }
{
    match found {
        Some(mark) => Run {
            at: advance(marks, begin, end, mark),
            end,
            mark,
            factor,
        },
        None => Run {
            at: end,
            end,
            mark: 0,
            factor,
        },
    }
}
