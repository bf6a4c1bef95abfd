// One command, with what it writes into the bins.
ghost use Rattle.std.specs.Prelude.{◌≡◌, length};
ghost use Rattle.commands.specs.Step.{bins_after};
ghost use Rattle.commands.specs.Run.{acted, step_of};

use super::command::{Arranged, Command, is_too_long, well_formed};
use super::play::{numbers_at, play};
use super::step::{Step, goes_on, stops, swap, turn};
use pulse::bin::row_of;
use quant::quantity::Time;
use quant::refusal::Refusal;
use tables::Tables;

// A bin is written once nothing can refuse any more.
pub(crate) fn act(t: Tables, splines: &[[f64; 72]], bins: &mut [[f64; 77]], a: Arranged) -> Step
    requires { (length splines.now ≡ 8) × (length bins.old ≡ 512) }
    ensures value { result ≡ step_of t splines.now bins.old a }
    ensures bins_after { bins.new ≡ bins_after (step_of t splines.now bins.old a) splines.now bins.old }
{
    let s = step(t, splines, bins, a);
    if s.opens {
        bins[s.at] = row_of(s.head, numbers_at(splines, s.spline));
    }
    s
}

// Refusals 2 and 4, then those of each command.
fn step(t: Tables, splines: &[[f64; 72]], bins: &[[f64; 77]], a: Arranged) -> Step
    requires { (length splines.now ≡ 8) × (length bins.now ≡ 512) }
    ensures { result ≡ step_of t splines.now bins.now a }
{
    if !well_formed(a) {
        return stops(t, Refusal::Malformed);
    }
    if is_too_long(t, a) {
        return stops(t, Refusal::Oversize);
    }
    carry_out(t, splines, bins, a.start, a.span, a.command)
}

#[tactic(auto, unfolding(crate::specs::Run::acted))]
fn carry_out(
    t: Tables,
    splines: &[[f64; 72]],
    bins: &[[f64; 77]],
    start: Time,
    span: Time,
    c: Command,
) -> Step
    requires { (length splines.now ≡ 8) × (length bins.now ≡ 512) }
    ensures { result ≡ acted t splines.now bins.now start.0 span.0 c }
{
    match c {
        Command::Play(p) => play(t, splines, bins, start, span, p),
        Command::ShiftPhase(n, _) | Command::SetPhase(n, _) => turn(t, n, c, start),
        Command::ShiftFreq(n, _) | Command::SetFreq(n, _) => turn(t, n, c, start),
        Command::SwapPhase(n, m) => swap(t, n, m, start),
        Command::Barrier => goes_on(t),
    }
}
