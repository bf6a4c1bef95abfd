// A row through taps, by a ring of slots: the Rust's `pulse/fir.rs` at one lane. The taps stay where the caller has them, each found by wrapping
// round.
#![tactic(auto)]

ghost use Rattle.std.specs.Prelude.{◌≡◌, ◌%◌, ◌≤◌, ◌<◌, length};
ghost use Rattle.ring.specs.Ring.{slot_of, filtered_from, filtered_or_kept};
ghost use Rattle.ring.specs.Inside.{Ready, Advanced};

mod eight;
mod few;

use eight::eight;
use few::{one, only_tap, two};

// The ring is all zero before the row. With no tap, or more than 256, the row stays.
pub fn filter(row: &mut [f64], taps: &[f64])
    ensures { row.new ≡ filtered_or_kept taps.now row.old }
{
    if taps.is_empty() || 256 < taps.len() {
        return;
    }
    let mut ring = [0.0; 256];
    go_round(row, &mut ring, taps);
}

// Through the row: the k-th sample goes to slot s.
// Kept: `k` by hand, since a turn takes one, two or eight samples; no iterator says that more plainly.
fn go_round(row: &mut [f64], ring: &mut [f64], taps: &[f64])
    requires { Ready taps.now ring.old }
    ensures { row.new ≡ filtered_from taps.now 0 ring.old row.old }
{
    if taps.len() == 1 {
        only_tap(row, taps[0]);
        return;
    }
    let mut k = 0;
    let mut s = 0;
    while k < row.len() {
        let done = advance(row, ring, taps, k, s);
        k += done;
        s = wrap(s + done, taps.len());
    }
}

// Eight samples where as many are left, in the row and up to the ring's end; else two, else one.
fn advance(row: &mut [f64], ring: &mut [f64], taps: &[f64], k: usize, s: usize) -> usize
    requires ready { Ready taps.now ring.old }
    requires slot { s ≡ slot_of taps.now k }
    requires turn { s < length taps.now }
    requires left { k < length row.old }
    ensures { Advanced taps.now k s result ring.old row.old ring.new row.new }
{
    let left = (taps.len() - s).min(row.len() - k);
    if 8 <= left {
        eight(row, ring, taps, k, s);
        8
    } else if 2 <= left {
        two(row, ring, taps, k, s);
        2
    } else {
        one(row, ring, taps, k, s);
        1
    }
}

// At the ring's end back to its first slot.
fn wrap(s: usize, n: usize) -> usize
    requires some { 1 ≤ n }
    requires within { s ≤ n }
    ensures { result ≡ s % n }
{
    if s < n { s } else { 0 }
}
