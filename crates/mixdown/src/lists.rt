// All bins of the lists that take part, by first appearance, each with its pulses.
ghost use Rattle.std.specs.Prelude.{◌≡◌, ◌≤◌, ◌<◌, ◌^◌, true, [], ◌++◌, length, take, get_or};
ghost use Rattle.rows.specs.Rows.{rows_fit};
ghost use Rattle.commands.specs.Play.{rows_of};
ghost use Rattle.merge.specs.Taking.{parts_in};
ghost use Rattle.mixdown.specs.Bins.{is_among, all_rows, firsts_after};
ghost use Rattle.mixdown.specs.Starts.{bins_held, Ended, merged_in};
ghost use Rattle.mixdown.specs.Sampled.{rowed, out, ran_bins};

use super::bin::sample_bin;
use super::bins::{appeared, bins_held, runs_for};
use merge::taking::Taking;
use merge::work::Ends;
use pulse::bin::{head_in, place};
use quant::refusal::Answer;
use quant::settings::Settings;
use tables::Tables;

pub(crate) fn sample_lists(
    s: Settings,
    t: Tables,
    taking: Taking,
    ends: Ends,
    bins: &[[f64; 77]],
    work: &[[f64; 5]],
    marks: &[usize],
    rows: usize,
    i: &mut [f64],
    q: &mut [f64],
    scratch: &mut [f64],
) -> Answer
    requires bins_len { (length bins.now ≡ 512) × (length work.now ≡ 8192) × (length marks.now ≡ 8192) × (taking.count ≤ 8) × Ended ends.ends }
    requires q_value { (rows_fit rows (length i.old) (length q.old) ≡ true) × (length i.old ≤ length scratch.old) }
    ensures { out result (rowed i.new q.new scratch.new) ≡ ran_bins s rows (merged_in t bins.now work.now marks.now (parts_in taking) ends.ends) (firsts_after [] (all_rows t bins.now (parts_in taking))) 0 (rowed i.old q.old scratch.old) }
{
    let mut n = 0;
    for k in 0..taking.count {
        n = sample_list(
            s, t, taking, ends, k, bins, work, marks, rows, i, q, scratch, n,
        )?;
    }
    Ok(n)
}

// The bins of list k that no list before it has.
fn sample_list(
    s: Settings,
    t: Tables,
    taking: Taking,
    ends: Ends,
    k: usize,
    bins: &[[f64; 77]],
    work: &[[f64; 5]],
    marks: &[usize],
    rows: usize,
    i: &mut [f64],
    q: &mut [f64],
    scratch: &mut [f64],
    added: usize,
) -> Answer
    requires bins_len { (length bins.now ≡ 512) × (length work.now ≡ 8192) × (length marks.now ≡ 8192) × (taking.count ≤ 8) × Ended ends.ends }
    requires q_value { (rows_fit rows (length i.old) (length q.old) ≡ true) × (length i.old ≤ length scratch.old) × (k < taking.count) × (added ≤ 2 ^ 50) }
    ensures { out result (rowed i.new q.new scratch.new) ≡ ran_bins s rows (merged_in t bins.now work.now marks.now (parts_in taking) ends.ends) (firsts_after (all_rows t bins.now (take k (parts_in taking))) (rows_of t bins.now (get_or taking.places k 0))) added (rowed i.old q.old scratch.old) }
{
    let at = taking.places[k];
    let many = bins_held(t, at);
    let tolerance = t.time;
    let mut n = added;
    for p in 0..many {
        let row = bins[64 * at + p];
        if !seen(t, taking, bins, k, at, p, row) {
            let runs = runs_for(t, taking, ends, bins, marks, row);
            n = sample_bin(s, row, tolerance, runs, work, marks, rows, i, q, scratch, n)?;
        }
    }
    Ok(n)
}

// Whether a bin's row stands in one of the first k lists, or among the first p of the bins of the channel at a place.
fn seen(
    t: Tables,
    taking: Taking,
    bins: &[[f64; 77]],
    k: usize,
    at: usize,
    p: usize,
    row: [f64; 77],
) -> bool
    requires { (length bins.now ≡ 512) × (taking.count ≤ 8) × (k ≤ taking.count) × (at < 8) × (p ≤ bins_held t at) }
    ensures { result ≡ is_among row (all_rows t bins.now (take k (parts_in taking)) ++ take p (rows_of t bins.now at)) }
{
    if appeared(t, taking, bins, k, row) {
        return true;
    }
    let first = 64 * at;
    place(head_in(row), &row[5..77], &bins[first..first + p]) < p
}
