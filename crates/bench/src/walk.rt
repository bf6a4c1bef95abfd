// The lines of a job, in order: each is read, told to the bench, and answered.
ghost use Rattle.std.specs.Prelude.{◌<◌, ◌≤◌, length};

use super::fault::is_returned;
use super::say::part;
use super::sentence::{answered, answered_run, answered_sample};
use super::state::{is_run, is_sample, kept, ran, request, second, start};
use super::steps::tell;
use commands::command::{Arranged, Command};
use crosstalk::names::Crosstalk;
use job::line::read;
use lines::text::line_end;
use owned::execute_owned;
use owned_sampler::sample_owned;
use pulse::list::Pulse;
use quant::quantity::Time;
use quant::refusal::Answer;
use sampler::Request;
use std::io;
use std::io::{Stderr, Stdout};
use tables::Tables;

// An error where an answer cannot be written: the lines behind it are not read.
pub(crate) fn each(out: Stdout, err: Stderr, text: &[u8]) -> io::Result<()> {
    let mut commands = [idle(); 1024];
    let mut starts = [0usize; 1025];
    let mut pulses = [Pulse::default(); 8192];
    let mut bins = [[0.0; 77]; 512];
    let mut splines = [[0.0; 72]; 8];
    let mut i = [0.0; 65536];
    let mut q = [0.0; 65536];
    let mut scratch = [0.0; 65536];
    let mut work = [[0.0; 5]; 8192];
    let mut marks = [0usize; 8192];
    let mut factors = [0.0; 64];
    let mut s = start();
    let mut warned = false;
    let mut number: usize = 0;
    let mut at: usize = 0;
    // Kept: bytes have no `split`, and a text parted in two at each line feed is no plainer.
    while at < text.len() {
        let end = end_of(text, at);
        let said = read(&text[at..end]);
        number += 1;
        let slot = s.gathered.min(1023);
        commands[slot] = kept(said, commands[slot]);
        // Where the line begins stays beside the command that it is; any other line's is written over.
        let place = s.gathered.min(1024);
        starts[place] = at;
        let runs = is_run(said, s.gathered);
        let told = tell(
            out,
            said,
            s,
            text,
            at,
            end,
            &mut splines,
            &mut factors,
            &mut i,
            &mut q,
        );
        s = told.state;
        let reply = told.reply;
        // That lines end in carriage returns is said once.
        let returned = is_returned(reply, part(text, at, end));
        answered(out, err, reply, returned && warned, text, at, end, number)?;
        warned = returned || warned;
        let from = at;
        let line = number;
        number += told.lines;
        at = told.next;
        if runs {
            let t = s.tables;
            let e = execute_owned(t, &splines, commands, s.gathered, &mut bins, pulses);
            let tabled = e.tabled;
            pulses = e.pulses;
            s = ran(s, tabled);
            let answer = tabled.answer;
            answered_run(out, err, answer, t, text, &starts, line)?;
        } else if is_sample(said) {
            let t = s.tables;
            let c = s.crosstalk;
            let answer = sample_line(
                t,
                request(said, s.rows),
                c,
                s.length,
                second(s),
                &factors,
                &bins,
                pulses,
                &mut i,
                &mut q,
                &mut scratch,
                &mut work,
                &mut marks,
            );
            answered_sample(out, err, answer, c, text, from, end, line)?;
        }
    }
    Ok(())
}

// Onto the first samples of each row: so many of I, and so many of Q.
fn sample_line(
    t: Tables,
    r: Request,
    c: Crosstalk,
    first: usize,
    second: usize,
    factors: &[f64],
    bins: &[[f64; 77]],
    pulses: [Pulse; 8192],
    i: &mut [f64],
    q: &mut [f64],
    scratch: &mut [f64],
    work: &mut [[f64; 5]],
    marks: &mut [usize],
) -> Answer {
    let n = first.min(i.len());
    let m = second.min(q.len());
    sample_owned(
        t,
        r,
        c,
        factors,
        bins,
        pulses,
        &mut i[..n],
        &mut q[..m],
        scratch,
        work,
        marks,
    )
}

// Where the line at a place ends, within its text.
pub(crate) fn end_of(text: &[u8], at: usize) -> usize
    requires { at < length text.now }
    ensures { (at ≤ result) × (result ≤ length text.now) }
{
    line_end(text, at)
}

fn idle() -> Arranged {
    Arranged {
        start: Time(0.0),
        span: Time(0.0),
        command: Command::Barrier,
    }
}
