// A line, by the word that it begins with. The job text's table, in its order.
ghost use Rattle.std.specs.Prelude.{◌≡◌, unwrap_or};
ghost use Rattle.fields.specs.Words.{words_of};
ghost use Rattle.job.specs.Line.{line_of, setting_of, action_of, tables_of, channel_of, shape_of, rows_of, sample_of};
ghost use Rattle.job.specs.declared.line.Line.TheVariants.{Syntax};

use super::command::command;
use commands::command::Arranged;
use executor::osc::OscState;
use fields::pair::pair_in;
use fields::value::{flag_in, level_in, name_in, number_in, whole_in};
use fields::words::{count, is_word};
use naming::Name;
use quant::quantity::{Amplitude, Frequency, Phase, Time};

#[derive(Clone, Copy)]
pub struct Sampling {
    pub channel: Name,
    pub rate: Frequency,
    pub delay: Time,
    pub level: i32,
}

// Lists are told by their counts; a caller takes their names and numbers from the line.
#[derive(Clone, Copy)]
pub enum Line {
    // An empty line, or one that begins with `#`.
    Nothing,
    Syntax,
    Tables(Amplitude, Time, bool),
    Channel(Name, OscState),
    Shape(Name),
    // Its degree, controls and knots; the numbers stand from word 5 on.
    Spline(Name, u64, u64, u64),
    Command(Arranged),
    Run,
    States,
    Crosstalk(u64),
    // So many lines behind it are a sheet.
    Sheet(u64),
    Rows(u64, u64),
    Sample(Sampling),
    Mixer,
    Iir(u64),
    Fir(u64),
    Print,
}

// What a line says. Total: any bytes at all.
#[tactic(auto, unfolding(crate::specs::Line::line_of))]
pub fn read(line: &[u8]) -> Line
    ensures { result ≡ line_of line.now }
{
    match line {
        [] | [b'#', ..] => Line::Nothing,
        _ => setting(line).unwrap_or(Line::Syntax),
    }
}

// The lines that set the bench up; any other is an action. Here and below, none is a line that cannot be read.
#[tactic(auto, unfolding(crate::specs::Line::setting_of))]
fn setting(line: &[u8]) -> Option<Line>
    ensures { unwrap_or result Syntax ≡ setting_of (words_of line.now) }
{
    if is_word(line, 0, b"tables") {
        return tables(line);
    }
    if is_word(line, 0, b"channel") {
        return channel(line);
    }
    if is_word(line, 0, b"shape") {
        return shape(line);
    }
    if is_word(line, 0, b"rows") {
        return rows(line);
    }
    if is_word(line, 0, b"sample") {
        return sample(line);
    }
    action(line)
}

// The words that stand alone; any other line is a command or a list.
#[tactic(auto, unfolding(crate::specs::Line::action_of))]
fn action(line: &[u8]) -> Option<Line>
    ensures { unwrap_or result Syntax ≡ action_of (words_of line.now) }
{
    if count(line) != 1 {
        return command(line);
    }
    if is_word(line, 0, b"run") {
        return Some(Line::Run);
    }
    if is_word(line, 0, b"states") {
        return Some(Line::States);
    }
    if is_word(line, 0, b"print") {
        return Some(Line::Print);
    }
    command(line)
}

// `tables amp_tol=N time_tol=N oversize=0|1`.
#[tactic(auto, unfolding(crate::specs::Line::tables_of))]
fn tables(line: &[u8]) -> Option<Line>
    ensures { unwrap_or result Syntax ≡ tables_of (words_of line.now) }
{
    if count(line) != 4 {
        return None;
    }
    let (amp, time) = pair_in(line, 1, b"amp_tol=", 2, b"time_tol=")?;
    let allowed = flag_in(line, 3, b"oversize=")?;
    Some(Line::Tables(Amplitude(amp), Time(time), allowed))
}

// `channel NAME base=N delta=N phase=N`.
#[tactic(auto, unfolding(crate::specs::Line::channel_of))]
fn channel(line: &[u8]) -> Option<Line>
    ensures { unwrap_or result Syntax ≡ channel_of (words_of line.now) }
{
    if count(line) != 5 {
        return None;
    }
    let n = name_in(line, 1, b"")?;
    let (base, delta) = pair_in(line, 2, b"base=", 3, b"delta=")?;
    let phase = number_in(line, 4, b"phase=")?;
    Some(Line::Channel(
        n,
        OscState {
            base: Frequency(base),
            delta: Frequency(delta),
            phase: Phase(phase),
        },
    ))
}

// `shape NAME hann`.
#[tactic(auto, unfolding(crate::specs::Line::shape_of))]
fn shape(line: &[u8]) -> Option<Line>
    ensures { unwrap_or result Syntax ≡ shape_of (words_of line.now) }
{
    if count(line) != 3 {
        return None;
    }
    if !is_word(line, 2, b"hann") {
        return None;
    }
    Some(Line::Shape(name_in(line, 1, b"")?))
}

// `rows R LENGTH`.
#[tactic(auto, unfolding(crate::specs::Line::rows_of))]
fn rows(line: &[u8]) -> Option<Line>
    ensures { unwrap_or result Syntax ≡ rows_of (words_of line.now) }
{
    if count(line) != 3 {
        return None;
    }
    let n = whole_in(line, 1, b"")?;
    let length = whole_in(line, 2, b"")?;
    Some(Line::Rows(n, length))
}

// `sample NAME rate=N delay=N level=INTEGER`.
#[tactic(auto, unfolding(crate::specs::Line::sample_of))]
fn sample(line: &[u8]) -> Option<Line>
    ensures { unwrap_or result Syntax ≡ sample_of (words_of line.now) }
{
    if count(line) != 5 {
        return None;
    }
    let n = name_in(line, 1, b"")?;
    let (rate, delay) = pair_in(line, 2, b"rate=", 3, b"delay=")?;
    let level = level_in(line, 4, b"level=")?;
    Some(Line::Sample(Sampling {
        channel: n,
        rate: Frequency(rate),
        delay: Time(delay),
        level,
    }))
}
