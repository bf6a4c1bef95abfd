// The command call: a list of commands, carried out in turn up to the first that is refused. The Rust's `Executor::execute`.
ghost use Rattle.std.specs.Prelude.{◌≡◌};
ghost use Rattle.quant.specs.declared.refusal.Refusal.TheVariants.{WrongSize};
ghost use Rattle.commands.specs.Run.{ran_to, executed, sizes_fit, done_at, refused_at};

use super::command::Arranged;
use super::run::act;
use pulse::list::{Pulse, store};
use quant::refusal::{Answer, Refusal};
use tables::{Tabled, Tables};

// Bins are 64 rows a channel, pulses 1,024 records a channel, and eight rows have the numbers of the shapes; other sizes, or over 1,024 commands, are
// refusal 13.
pub fn execute(
    t: Tables,
    splines: &[[f64; 72]],
    commands: &[Arranged],
    bins: &mut [[f64; 77]],
    pulses: &mut [Pulse],
) -> Tabled
    ensures { ran_to result bins.new pulses.new ≡ executed t splines.now commands.now bins.old pulses.old }
{
    if !sizes_fit(commands.len(), splines.len(), bins.len(), pulses.len()) {
        return misfit(t);
    }
    let mut u = t;
    for (k, c) in commands.iter().enumerate() {
        let s = act(u, splines, bins, *c);
        if s.stop {
            return refused(u, s.why, k);
        }
        if s.put {
            store(pulses, s.from, s.count, s.pulse);
        }
        u = s.tables;
    }
    done(u, commands.len())
}

pub(crate) fn sizes_fit(commands: usize, splines: usize, bins: usize, pulses: usize) -> bool
    ensures { result ≡ sizes_fit commands splines bins pulses }
{
    commands <= 1024 && splines == 8 && bins == 512 && pulses == 8192
}

// The three ways to end.
pub(crate) fn done(t: Tables, run: usize) -> Tabled
    ensures { result ≡ done_at t run }
{
    Tabled {
        answer: Ok(run),
        tables: t,
    }
}

pub(crate) fn refused(t: Tables, why: Refusal, run: usize) -> Tabled
    ensures { result ≡ refused_at t why run }
{
    Tabled {
        answer: Err(why.at(run)),
        tables: t,
    }
}

pub(crate) fn misfit(t: Tables) -> Tabled
    ensures { result ≡ refused_at t WrongSize 0 }
{
    refused(t, Refusal::WrongSize, 0)
}
