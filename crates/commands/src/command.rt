// Commands by value. The Rust's `ElementVariant` and its cases in src/schedule; `Arranged` has the start and the span beside it.
ghost use Rattle.std.specs.Prelude.{◌≡◌};
ghost use Rattle.commands.specs.Command.{good_names, good_shape, good_numbers, good, well_formed, required, too_long};

use ieee::finite::is_finite;
use naming::{Name, is_name};
use quant::quantity::{Amplitude, Frequency, Phase, Quantity, Time};
use tables::Tables;

#[derive(Clone, Copy)]
pub struct Play {
    pub channel: Name,
    pub shape: Option<Name>,
    pub amplitude: Amplitude,
    pub width: Time,
    pub plateau: Time,
    pub drag: f64,
    pub frequency: Frequency,
    pub phase: Phase,
    pub flexible: bool,
}

#[derive(Clone, Copy)]
pub enum Command {
    Play(Play),
    ShiftPhase(Name, Phase),
    SetPhase(Name, Phase),
    ShiftFreq(Name, Frequency),
    SetFreq(Name, Frequency),
    SwapPhase(Name, Name),
    Barrier,
}

#[derive(Clone, Copy)]
pub struct Arranged {
    pub start: Time,
    pub span: Time,
    pub command: Command,
}

// Whether a command meets no refusal 2.
pub(crate) fn well_formed(a: Arranged) -> bool
    ensures { result ≡ well_formed a }
{
    is_finite(a.start.0) && is_finite(a.span.0) && is_good(a.command)
}

#[tactic(auto, unfolding(crate::specs::Command::good))]
fn is_good(c: Command) -> bool
    ensures { result ≡ good c }
{
    match c {
        Command::Play(p) => has_good_names(p) && has_good_numbers(p),
        Command::ShiftPhase(n, x) | Command::SetPhase(n, x) => is_name(n) && is_finite(x.0),
        Command::ShiftFreq(n, x) | Command::SetFreq(n, x) => is_name(n) && is_finite(x.0),
        Command::SwapPhase(n, m) => is_name(n) && is_name(m),
        Command::Barrier => true,
    }
}

fn has_good_names(p: Play) -> bool
    ensures { result ≡ good_names p }
{
    is_name(p.channel) && p.shape.is_none_or(is_name)
}

fn has_good_numbers(p: Play) -> bool
    ensures { result ≡ good_numbers p }
{
    is_finite(p.amplitude.0)
        && is_finite(p.width.0)
        && is_finite(p.plateau.0)
        && is_finite(p.drag)
        && is_finite(p.frequency.0)
        && is_finite(p.phase.0)
        && !(p.width.0 < 0.0)
}

// Whether a command takes longer than its span and the tolerance.
pub(crate) fn is_too_long(t: Tables, a: Arranged) -> bool
    ensures { result ≡ too_long t a }
{
    !t.oversize && a.span.0 + t.time.0 < required(a.command).0
}

#[tactic(auto, unfolding(crate::specs::Command::required))]
fn required(c: Command) -> Time
    ensures { result.0 ≡ required c }
{
    match c {
        Command::Play(p) if p.flexible => p.width,
        Command::Play(p) => p.width.add(p.plateau),
        _ => Time(0.0),
    }
}
