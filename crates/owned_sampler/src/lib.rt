// The sampling call for a caller that owns its pulses: they come by value.
#![tactic(auto)]

ghost use Rattle.std.specs.Prelude.{◌≡◌};
ghost use Rattle.mixdown.specs.Sampled.{rowed};
ghost use Rattle.sampler.specs.Sampler.{left, sampled};

use crosstalk::names::Crosstalk;
use pulse::list::Pulse;
use quant::refusal::Answer;
use sampler::{Request, sample};
use tables::Tables;

pub fn sample_owned(
    t: Tables,
    r: Request,
    c: Crosstalk,
    factors: &[f64],
    bins: &[[f64; 77]],
    pulses: [Pulse; 8192],
    i: &mut [f64],
    q: &mut [f64],
    scratch: &mut [f64],
    work: &mut [[f64; 5]],
    marks: &mut [usize],
) -> Answer
    ensures { left result (rowed i.new q.new scratch.new) work.new marks.new ≡ sampled t r c factors.now bins.now pulses (rowed i.old q.old scratch.old) work.old marks.old }
{
    sample(t, r, c, factors, bins, &pulses, i, q, scratch, work, marks)
}
