// The command call for a caller that owns its arrays: they come and go by value.
#![tactic(auto)]

ghost use Rattle.std.specs.Prelude.{◌≡◌};
ghost use Rattle.commands.specs.Run.{ran_to};
ghost use Rattle.owned.specs.Owned.{executed_owned, executed_with, to_run, told_of};

use commands::command::Arranged;
use commands::execute::execute;
use pulse::list::Pulse;
use quant::refusal::{Answer, Refusal};
use tables::{Tabled, Tables};

#[derive(Clone, Copy)]
pub struct Executed {
    pub tabled: Tabled,
    pub pulses: [Pulse; 8192],
}

// The first `count` commands. A count over 1,024 is refusal 13: then none runs, so that all stays as it came.
pub fn execute_owned(
    t: Tables,
    splines: &[[f64; 72]],
    commands: [Arranged; 1024],
    count: usize,
    bins: &mut [[f64; 77]],
    mut pulses: [Pulse; 8192],
) -> Executed
    ensures { ran_to result.tabled bins.new result.pulses ≡ executed_owned t splines.now commands count bins.old pulses }
{
    let n = to_run(count);
    let tabled = execute(t, splines, &commands[..n], bins, &mut pulses);
    with_pulses(count, tabled, pulses)
}

fn to_run(count: usize) -> usize
    ensures { result ≡ to_run count }
{
    if count <= 1024 { count } else { 0 }
}

fn with_pulses(count: usize, tabled: Tabled, pulses: [Pulse; 8192]) -> Executed
    ensures { result ≡ executed_with count tabled pulses }
{
    let tabled = told(count, tabled);
    Executed { tabled, pulses }
}

fn told(count: usize, tabled: Tabled) -> Tabled
    ensures { result ≡ told_of count tabled }
{
    if count <= 1024 {
        return tabled;
    }
    let answer = Err(Refusal::WrongSize.at(0));
    Tabled { answer, ..tabled }
}
