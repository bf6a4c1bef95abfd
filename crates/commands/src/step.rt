// One command's step: what it comes to, decided before anything is written.
ghost use Rattle.std.specs.Prelude.{◌≡◌, ◌<◌};
ghost use Rattle.tables.specs.Tables.{found, channel_at};
ghost use Rattle.commands.specs.Step.{stops, goes_on, with_osc, unmoved, moved_by, turned_at, swapped_between};

use super::command::Command;
use executor::osc::{Moved, OscState, swap_phase};
use naming::{Name, same};
use pulse::list::Pulse;
use quant::quantity::Time;
use quant::refusal::Refusal;
use tables::{Channel, Tables, find, with_channel};

// `stop`: refused, by `why`. `put`: a pulse is to be stored behind the first `count` records from `from` on. `opens`: its bin is new, and
// its row, the head with the numbers at the place `spline` behind it, goes to the place `at`. The tables are those afterwards.
#[derive(Clone, Copy)]
pub struct Step {
    pub stop: bool,
    pub why: Refusal,
    pub put: bool,
    pub from: usize,
    pub count: usize,
    pub pulse: Pulse,
    pub opens: bool,
    pub at: usize,
    pub head: [f64; 5],
    pub spline: usize,
    pub tables: Tables,
}

// Accepted, with nothing to store.
pub(crate) fn goes_on(t: Tables) -> Step
    ensures { result ≡ goes_on t }
{
    Step {
        stop: false,
        why: Refusal::Unfit,
        put: false,
        from: 0,
        count: 0,
        pulse: Pulse::default(),
        opens: false,
        at: 0,
        head: [0.0; 5],
        spline: 8,
        tables: t,
    }
}

pub(crate) fn stops(t: Tables, why: Refusal) -> Step
    ensures { result ≡ stops t why }
{
    Step {
        stop: true,
        why,
        ..goes_on(t)
    }
}

// A command to one channel's oscillator.
#[tactic(auto, unfolding(crate::specs::Step::turned_at))]
pub(crate) fn turn(t: Tables, name: Name, c: Command, time: Time) -> Step
    ensures { result ≡ turned_at t (found t name) c time.0 }
{
    let Some(i) = find(t, name) else {
        return stops(t, Refusal::UnknownChannel);
    };
    let m = moved_by(c, time, osc_at(t, i));
    if m.refused {
        return stops(t, Refusal::NotFinite);
    }
    goes_on(with_osc(t, i, m.osc))
}

#[tactic(auto, unfolding(crate::specs::Step::swapped_at))]
pub(crate) fn swap(t: Tables, n: Name, m: Name, time: Time) -> Step
    ensures { result ≡ swapped_between t n m time.0 }
{
    if same(n, m) {
        return goes_on(t);
    }
    let Some(i) = find(t, n) else {
        return stops(t, Refusal::UnknownChannel);
    };
    let Some(j) = find(t, m) else {
        return stops(t, Refusal::UnknownChannel);
    };
    let s = swap_phase(osc_at(t, i), osc_at(t, j), time);
    if s.refused {
        return stops(t, Refusal::NotFinite);
    }
    goes_on(with_osc(with_osc(t, i, s.one), j, s.two))
}

// What a command does to an oscillator at a time. Those that are no command to one oscillator leave it.
#[tactic(auto, unfolding(crate::specs::Step::moved_by))]
fn moved_by(c: Command, time: Time, osc: OscState) -> Moved
    ensures { result ≡ moved_by c time.0 osc }
{
    match c {
        Command::ShiftPhase(_, x) => osc.shift_phase(x),
        Command::SetPhase(_, x) => osc.set_phase(x, time),
        Command::ShiftFreq(_, x) => osc.shift_freq(x, time),
        Command::SetFreq(_, x) => osc.set_freq(x, time),
        Command::Play(_) | Command::SwapPhase(_, _) | Command::Barrier => unmoved(osc),
    }
}

fn unmoved(osc: OscState) -> Moved
    ensures { result ≡ unmoved osc }
{
    Moved {
        refused: false,
        osc,
    }
}

// The oscillator of the channel at a place.
fn osc_at(t: Tables, i: usize) -> OscState
    requires { i < 8 }
    ensures { result ≡ (channel_at t i).osc }
{
    t.channels[i].osc
}

fn with_osc(t: Tables, i: usize, osc: OscState) -> Tables
    requires { i < 8 }
    ensures { result ≡ with_osc t i osc }
{
    let c = t.channels[i];
    with_channel(t, i, Channel { osc, ..c })
}
