// The seven commands, each with its start and span.
ghost use Rattle.std.specs.Prelude.{◌≡◌, unwrap_or};
ghost use Rattle.fields.specs.Words.{words_of};
ghost use Rattle.job.specs.Command.{command_of, step_of, play_of, arranged, swap_of, barrier_of};
ghost use Rattle.job.specs.declared.line.Line.TheVariants.{Syntax};

use super::line::Line;
use super::list::list_line;
use super::turn::turn_by;
use commands::command::{Arranged, Command, Play};
use fields::pair::pair_in;
use fields::value::{flag_in, name_in, shape_in};
use fields::words::{count, is_word};
use quant::quantity::{Amplitude, Frequency, Phase, Time};

#[tactic(auto, unfolding(crate::specs::Command::command_of))]
pub(crate) fn command(line: &[u8]) -> Option<Line>
    ensures { unwrap_or result Syntax ≡ command_of (words_of line.now) }
{
    if is_word(line, 0, b"play") {
        return play(line);
    }
    if is_word(line, 0, b"swap_phase") {
        return swap(line);
    }
    if is_word(line, 0, b"barrier") {
        return barrier(line);
    }
    step(line)
}

// The four that share their fields; any other line is a list.
#[tactic(auto, unfolding(crate::specs::Command::step_of))]
fn step(line: &[u8]) -> Option<Line>
    ensures { unwrap_or result Syntax ≡ step_of (words_of line.now) }
{
    if is_word(line, 0, b"shift_phase") {
        let t = turn_by(line, b"phase=")?;
        return Some(arranged(
            t.start,
            t.span,
            Command::ShiftPhase(t.channel, Phase(t.number)),
        ));
    }
    if is_word(line, 0, b"set_phase") {
        let t = turn_by(line, b"phase=")?;
        return Some(arranged(
            t.start,
            t.span,
            Command::SetPhase(t.channel, Phase(t.number)),
        ));
    }
    if is_word(line, 0, b"shift_freq") {
        let t = turn_by(line, b"freq=")?;
        return Some(arranged(
            t.start,
            t.span,
            Command::ShiftFreq(t.channel, Frequency(t.number)),
        ));
    }
    if is_word(line, 0, b"set_freq") {
        let t = turn_by(line, b"freq=")?;
        return Some(arranged(
            t.start,
            t.span,
            Command::SetFreq(t.channel, Frequency(t.number)),
        ));
    }
    list_line(line)
}

// `swap_phase a=NAME b=NAME start=N span=N`.
#[tactic(auto, unfolding(crate::specs::Command::swap_of))]
fn swap(line: &[u8]) -> Option<Line>
    ensures { unwrap_or result Syntax ≡ swap_of (words_of line.now) }
{
    if count(line) != 5 {
        return None;
    }
    let a = name_in(line, 1, b"a=")?;
    let b = name_in(line, 2, b"b=")?;
    let (start, span) = pair_in(line, 3, b"start=", 4, b"span=")?;
    Some(arranged(start, span, Command::SwapPhase(a, b)))
}

// `barrier start=N span=N`.
#[tactic(auto, unfolding(crate::specs::Command::barrier_of))]
fn barrier(line: &[u8]) -> Option<Line>
    ensures { unwrap_or result Syntax ≡ barrier_of (words_of line.now) }
{
    if count(line) != 3 {
        return None;
    }
    let (start, span) = pair_in(line, 1, b"start=", 2, b"span=")?;
    Some(arranged(start, span, Command::Barrier))
}

// `play ch=NAME shape=NAME amp=N width=N plateau=N drag=N freq=N phase=N flex=0|1 start=N span=N`.
#[tactic(auto, unfolding(crate::specs::Command::play_of))]
fn play(line: &[u8]) -> Option<Line>
    ensures { unwrap_or result Syntax ≡ play_of (words_of line.now) }
{
    if count(line) != 12 {
        return None;
    }
    let channel = name_in(line, 1, b"ch=")?;
    let shape = shape_in(line, 2, b"shape=")?;
    let (amplitude, width) = pair_in(line, 3, b"amp=", 4, b"width=")?;
    let (plateau, drag) = pair_in(line, 5, b"plateau=", 6, b"drag=")?;
    let (frequency, phase) = pair_in(line, 7, b"freq=", 8, b"phase=")?;
    let flexible = flag_in(line, 9, b"flex=")?;
    let (start, span) = pair_in(line, 10, b"start=", 11, b"span=")?;
    let play = Play {
        channel,
        shape,
        amplitude: Amplitude(amplitude),
        width: Time(width),
        plateau: Time(plateau),
        drag,
        frequency: Frequency(frequency),
        phase: Phase(phase),
        flexible,
    };
    Some(arranged(start, span, Command::Play(play)))
}

// A command with its start and span.
fn arranged(start: f64, span: f64, command: Command) -> Line
    ensures { result ≡ arranged start span command }
{
    Line::Command(Arranged {
        start: Time(start),
        span: Time(span),
        command,
    })
}
