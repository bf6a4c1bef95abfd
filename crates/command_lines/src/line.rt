// One line, read.
use commands::command::{Arranged, Command, Play};
use executor::osc::OscState;
use naming::Name;
use quant::quantity::{Amplitude, Frequency, Phase, Time};
use sampler::Request;
use words::{choice, float, level, name, readable, word};

#[derive(Clone, Copy)]
pub(crate) enum Line {
    Tables(Amplitude, Time, bool),
    Channel(Name, OscState),
    Shape(Name),
    Command(Arranged),
    Call(Call),
    Named(Name),
    Factor(f64),
    Sampling(Ask),
}

// `x`, `X`, `r`, `y`: what is told of a call, and what it leaves.
#[derive(Clone, Copy)]
pub(crate) enum Call {
    Whole,
    WithoutRows,
    Answer,
    Again,
}

// A sampling: what is asked for, the lengths and the samples of what is lent, and where the rows are printed from.
#[derive(Clone, Copy)]
pub(crate) struct Ask {
    pub(crate) request: Request,
    pub(crate) i: usize,
    pub(crate) q: usize,
    pub(crate) scratch: usize,
    pub(crate) first: f64,
    pub(crate) second: f64,
    pub(crate) from: usize,
}

// None: the line cannot be read.
pub(crate) fn read(line: &[u8]) -> Option<Line> {
    let letter = *line.first()?;
    if !readable(line, words_of(letter)) {
        return None;
    }
    let said = match letter {
        b't' => Line::Tables(
            Amplitude(float(line, 0)),
            Time(float(line, 1)),
            choice(line, 2),
        ),
        b'c' => Line::Channel(name(line, 0), osc_of(line)),
        b's' => Line::Shape(name(line, 0)),
        b'p' => arranged(line, Command::Play(play_of(line))),
        b'h' => arranged(
            line,
            Command::ShiftPhase(name(line, 2), Phase(float(line, 5))),
        ),
        b'H' => arranged(
            line,
            Command::SetPhase(name(line, 2), Phase(float(line, 5))),
        ),
        b'f' => arranged(
            line,
            Command::ShiftFreq(name(line, 2), Frequency(float(line, 5))),
        ),
        b'F' => arranged(
            line,
            Command::SetFreq(name(line, 2), Frequency(float(line, 5))),
        ),
        b'w' => arranged(line, Command::SwapPhase(name(line, 2), name(line, 5))),
        b'b' => arranged(line, Command::Barrier),
        b'x' => Line::Call(Call::Whole),
        b'X' => Line::Call(Call::WithoutRows),
        b'r' => Line::Call(Call::Answer),
        b'y' => Line::Call(Call::Again),
        b'n' => Line::Named(name(line, 0)),
        b'v' => Line::Factor(float(line, 0)),
        b'm' => Line::Sampling(ask_of(line)),
        _ => return None,
    };
    Some(said)
}

fn words_of(letter: u8) -> u8 {
    match letter {
        b't' | b's' | b'n' => 3,
        b'c' | b'h' | b'H' | b'f' | b'F' => 6,
        b'p' => 16,
        b'w' => 8,
        b'b' => 2,
        b'v' => 1,
        b'm' => 13,
        _ => 0,
    }
}

fn osc_of(line: &[u8]) -> OscState {
    OscState {
        base: Frequency(float(line, 3)),
        delta: Frequency(float(line, 4)),
        phase: Phase(float(line, 5)),
    }
}

fn arranged(line: &[u8], command: Command) -> Line {
    Line::Command(Arranged {
        start: Time(float(line, 0)),
        span: Time(float(line, 1)),
        command,
    })
}

fn play_of(line: &[u8]) -> Play {
    let shape = if choice(line, 5) {
        Some(name(line, 6))
    } else {
        None
    };
    Play {
        channel: name(line, 2),
        shape,
        amplitude: Amplitude(float(line, 9)),
        width: Time(float(line, 10)),
        plateau: Time(float(line, 11)),
        drag: float(line, 12),
        frequency: Frequency(float(line, 13)),
        phase: Phase(float(line, 14)),
        flexible: choice(line, 15),
    }
}

fn ask_of(line: &[u8]) -> Ask {
    let request = Request {
        channel: name(line, 0),
        rate: Frequency(float(line, 3)),
        delay: Time(float(line, 4)),
        level: level(line, 5, 30),
        rows: word(line, 6) as usize,
    };
    Ask {
        request,
        i: word(line, 7) as usize,
        q: word(line, 8) as usize,
        scratch: word(line, 9) as usize,
        first: float(line, 10),
        second: float(line, 11),
        from: word(line, 12) as usize,
    }
}
