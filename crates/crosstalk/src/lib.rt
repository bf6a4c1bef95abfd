// Which channels' lists take part in a sampling, with which factors, or the refusal. The crosstalk half of the Rust's `merge_and_sample`.
// Document 01: "a channel among the names takes its row; factor 0 skips a list". Of a sampling call's order 13, 2, 17 and 18, 7 are judged here.
#![tactic(auto)]

ghost use Rattle.std.specs.Prelude.{◌≡◌, ◌≤◌};
ghost use Rattle.crosstalk.specs.Crosstalk.{cross_fits, cross_fine, planned};

use merge::taking::Taking;
use names::{Crosstalk, all_names, names_judged};
use naming::{Name, is_name};
use parts::parts_for;
use quant::refusal::{Refusal, Refused};
use rows::all_finite;
use tables::{Tables, find};

pub mod names;
pub mod parts;

// The first N*N factors are read, row by row; more may be lent.
#[tactic(auto, unfolding(crate::specs::Crosstalk::planned))]
pub fn plan(t: Tables, channel: Name, c: Crosstalk, factors: &[f64]) -> Result<Taking, Refused>
    ensures { result ≡ planned t channel c factors.now }
{
    let n = c.count;
    if !fits(n, factors.len()) {
        return Err(Refusal::WrongSize.at(0));
    }
    if !is_fine(channel, c, &factors[..n * n]) {
        return Err(Refusal::Malformed.at(0));
    }
    names_judged(t, c)?;
    if find(t, channel).is_none() {
        return Err(Refusal::UnknownChannel.at(0));
    }
    Ok(parts_for(t, channel, c, factors))
}

// At most eight names, and a factor for each two of them.
fn fits(count: usize, lent: usize) -> bool
    ensures { result ≡ cross_fits count lent }
{
    count <= 8 && count * count <= lent
}

fn is_fine(channel: Name, c: Crosstalk, factors: &[f64]) -> bool
    requires { c.count ≤ 8 }
    ensures { result ≡ cross_fine channel c factors.now }
{
    is_name(channel) && all_names(c) && all_finite(factors)
}
