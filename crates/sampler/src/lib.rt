// The sampling call: one channel's lists, summed and merged with those that cross over to it, added onto the rows. The Rust's `sample` of
// src/pulse.rs with its `merge_and_sample`.
#![tactic(auto)]

ghost use Rattle.std.specs.Prelude.{◌≡◌};
ghost use Rattle.mixdown.specs.Sampled.{rowed};
ghost use Rattle.sampler.specs.Sampler.{left, sampled};
ghost use Rattle.sampler.specs.Prepared.{settings_of, is_fit, prepared_of};
ghost use Rattle.sampler.specs.Sizes.{sizes_fit};

use crosstalk::names::Crosstalk;
use crosstalk::plan;
use merge::taking::Taking;
use merge::work::sum_lists;
use mixdown::mix_lists;
use naming::Name;
use pulse::list::Pulse;
use quant::quantity::{Frequency, Time};
use quant::refusal::{Answer, Refusal, Refused};
use quant::settings::{Settings, set_up};
use rows::rows_fit;
use tables::Tables;

// What is asked for: the channel, the clock, and whether there are one or two rows.
#[derive(Clone, Copy)]
pub struct Request {
    pub channel: Name,
    pub rate: Frequency,
    pub delay: Time,
    pub level: i32,
    pub rows: usize,
}

// What the pulses are sampled with, where the call is not refused before the first.
#[derive(Clone, Copy)]
pub struct Prepared {
    pub settings: Settings,
    pub taking: Taking,
}

// Bins are 64 rows a channel, pulses 1,024 records a channel, and work rows and marks are as many as pulses; the scratch is no shorter than a
// row. Of one row only I is there. Only pulses that were added change the rows.
pub fn sample(
    t: Tables,
    r: Request,
    c: Crosstalk,
    factors: &[f64],
    bins: &[[f64; 77]],
    pulses: &[Pulse],
    i: &mut [f64],
    q: &mut [f64],
    scratch: &mut [f64],
    work: &mut [[f64; 5]],
    marks: &mut [usize],
) -> Answer
    ensures { left result (rowed i.new q.new scratch.new) work.new marks.new ≡ sampled t r c factors.now bins.now pulses.now (rowed i.old q.old scratch.old) work.old marks.old }
{
    let Prepared { settings, taking } = prepare(
        t,
        r,
        c,
        factors,
        bins.len(),
        pulses.len(),
        i.len(),
        q.len(),
        scratch.len(),
        work.len(),
        marks.len(),
    )?;
    let ends = sum_lists(t, taking, pulses, work, marks);
    mix_lists(
        settings, t, taking, ends, bins, work, marks, r.rows, i, q, scratch,
    )
}

// "Its order: 1, 13, 2, 14, 7, then each pulse", and 17 and 18 in place of 14: all but the last.
#[tactic(auto, unfolding(crate::specs::Prepared::prepared_of))]
fn prepare(
    t: Tables,
    r: Request,
    c: Crosstalk,
    factors: &[f64],
    bins: usize,
    pulses: usize,
    i: usize,
    q: usize,
    scratch: usize,
    work: usize,
    marks: usize,
) -> Result<Prepared, Refused>
    ensures { result ≡ prepared_of t r c factors.now bins pulses i q scratch work marks }
{
    if !is_fit(r) {
        return Err(Refusal::Unfit.at(0));
    }
    if !sizes_fit(r.rows, i, q, scratch, bins, pulses, work, marks) {
        return Err(Refusal::WrongSize.at(0));
    }
    let taking = plan(t, r.channel, c, factors)?;
    Ok(Prepared {
        settings: settings(r),
        taking,
    })
}

fn is_fit(r: Request) -> bool
    ensures { result ≡ is_fit r }
{
    set_up(r.rate, r.delay, r.level).is_some()
}

fn sizes_fit(
    rows: usize,
    i: usize,
    q: usize,
    scratch: usize,
    bins: usize,
    pulses: usize,
    work: usize,
    marks: usize,
) -> bool
    ensures { result ≡ sizes_fit rows i q scratch bins pulses work marks }
{
    rows_fit(rows, i, q)
        && i <= scratch
        && bins == 512
        && pulses == 8192
        && work == 8192
        && marks == 8192
}

fn settings(r: Request) -> Settings
    ensures { result ≡ settings_of r }
{
    Settings {
        rate: r.rate,
        dt: r.rate.dt(),
        delay: r.delay,
        level: r.level,
    }
}
