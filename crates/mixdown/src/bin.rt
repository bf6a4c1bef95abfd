// The pulses of one bin onto the rows: joined by time, those that fall together added up, each placed and added. The Rust's
// `merge_and_sample` and `sample_pulse_list`, for one bin.
ghost use Rattle.std.specs.Prelude.{◌≡◌, ◌≤◌, ◌<◌, ◌^◌, true, length, get_or};
ghost use Rattle.rows.specs.Rows.{rows_fit};
ghost use Rattle.pulse.specs.Bin.{bin_of, numbers_of};
ghost use Rattle.merge.specs.Sum.{scaled_p, summed_again};
ghost use Rattle.merge.specs.Join.{joined};
ghost use Rattle.mixdown.specs.Runs.{Within, no_run, pulse_at, pulses_in, runs_in};
ghost use Rattle.mixdown.specs.Sampled.{rowed, out, ran_pulses};

use super::onto::add_pulse;
use super::runs::{Picked, Runs, move_on, pick, pulse_at};
use merge::sum::{is_near, plus, scaled};
use pulse::bin::bin_of;
use pulse::list::Pulse;
use quant::quantity::Time;
use quant::refusal::Answer;
use quant::settings::Settings;

pub(crate) fn sample_bin(
    s: Settings,
    row: [f64; 77],
    tolerance: Time,
    runs: Runs,
    work: &[[f64; 5]],
    marks: &[usize],
    rows: usize,
    i: &mut [f64],
    q: &mut [f64],
    scratch: &mut [f64],
    added: usize,
) -> Answer
    requires work_len { (length work.now ≡ 8192) × (length marks.now ≡ 8192) × (runs.count ≤ 8) × Within runs.runs }
    requires q_value { (rows_fit rows (length i.old) (length q.old) ≡ true) × (length i.old ≤ length scratch.old) × (added ≤ 2 ^ 60) }
    ensures { out result (rowed i.new q.new scratch.new) ≡ ran_pulses s (bin_of row) (numbers_of row) rows (summed_again tolerance.0 (joined (runs_in (pulses_in work.now marks.now) runs))) added (rowed i.old q.old scratch.old) }
{
    let Some(first) = pick(runs, work, marks) else {
        return Ok(added);
    };
    let b = bin_of(row);
    let mut kept = picked_pulse(runs, first, work, marks);
    let mut held = None;
    let mut n = added;
    let mut r = move_on(runs, first, marks);
    while let Some(p) = pick(r, work, marks) {
        let next = picked_pulse(r, p, work, marks);
        r = move_on(r, p, marks);
        if is_near(kept.time, next.time, tolerance) {
            kept = plus(kept, next);
        } else {
            match add_pulse(s, b, &row[5..77], kept, held, rows, i, q, scratch) {
                Ok(h) => {
                    held = h;
                    kept = next;
                    n += 1;
                }
                Err(why) => {
                    return Err(why.at(n));
                }
            }
        }
    }
    match add_pulse(s, b, &row[5..77], kept, held, rows, i, q, scratch) {
        Ok(_) => Ok(n + 1),
        Err(why) => Err(why.at(n)),
    }
}

// The pulse that was picked, times its list's factor.
fn picked_pulse(r: Runs, p: Picked, work: &[[f64; 5]], marks: &[usize]) -> Pulse
    requires { (length work.now ≡ 8192) × (length marks.now ≡ 8192) × (p.list < 8) × (p.at < 8192) }
    ensures { result ≡ scaled_p (get_or r.runs p.list no_run).factor (pulse_at work.now marks.now p.at) }
{
    let k = p.list;
    let run = r.runs[k];
    scaled(pulse_at(work, marks, p.at), run.factor)
}
