// The summed lists in the work rows, merged bin by bin and mixed down onto the rows. The Rust's `merge_and_sample` and `sample_pulse_list`.
#![tactic(auto)]

ghost use Rattle.std.specs.Prelude.{◌≡◌};
ghost use Rattle.mixdown.specs.Sampled.{rowed, out, ends_fit, mixed_down};

mod bin;
mod bins;
mod lists;
mod onto;
mod runs;

use lists::sample_lists;
use merge::taking::Taking;
use merge::work::Ends;
use quant::refusal::{Answer, Refusal};
use quant::settings::Settings;
use rows::rows_fit;
use tables::Tables;

// The lists that take part lie in the work rows, each from the end of the one before it up to its own; the marks are the places of their
// pulses' bins. The work rows stay as they are.
#[tactic(auto, unfolding(crate::specs::Sampled::mixed_down), using(crate::proofs::Ending::ended))]
pub fn mix_lists(
    s: Settings,
    t: Tables,
    taking: Taking,
    ends: Ends,
    bins: &[[f64; 77]],
    work: &mut [[f64; 5]],
    marks: &mut [usize],
    rows: usize,
    i: &mut [f64],
    q: &mut [f64],
    scratch: &mut [f64],
) -> Answer
    ensures scratch_after { out result (rowed i.new q.new scratch.new) ≡ mixed_down s t taking ends bins.now work.old marks.old rows (rowed i.old q.old scratch.old) }
    ensures work_unchanged { (work.new ≡ work.old) × (marks.new ≡ marks.old) }
{
    if bins.len() == 512
        && work.len() == 8192
        && marks.len() == 8192
        && taking.count <= 8
        && ends_fit(ends)
        && rows_fit(rows, i.len(), q.len())
        && i.len() <= scratch.len()
    {
        return sample_lists(s, t, taking, ends, bins, work, marks, rows, i, q, scratch);
    }
    Err(Refusal::WrongSize.at(0))
}

// Whether no list ends past the work rows.
fn ends_fit(e: Ends) -> bool
    ensures { result ≡ ends_fit e.ends }
{
    for k in 0..8 {
        if 8192 < e.ends[k] {
            return false;
        }
    }
    true
}
