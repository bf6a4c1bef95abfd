// One output at a time, or two side by side: at the ring's end and the row's, and where there are fewer than eight taps. A sum is taken in ring order:
// the slots before the new samples', theirs, those after.
ghost use Rattle.std.specs.Prelude.{◌≡◌, [], ◌∷◌, ◌+◌, ◌≤◌, ◌<◌, length, get_or};
ghost use Rattle.std.specs.Float.{nan, binary64};
ghost use Rattle.std.specs.Float.Ieee.{add, mul};
ghost use Rattle.ring.specs.Ring.{slot_of};
ghost use Rattle.ring.specs.Inside.{Ready, by_one_tap, output, Moved};

// One tap has a ring of one slot, so that nothing is left of the sample before.
pub(crate) fn only_tap(row: &mut [f64], tap: f64)
    ensures { row.new ≡ by_one_tap tap row.old }
{
    for x in row.iter_mut() {
        *x = tap * *x + 0.0;
    }
}

// The k-th sample goes to slot s, and its output takes its place.
pub(crate) fn one(row: &mut [f64], ring: &mut [f64], taps: &[f64], k: usize, s: usize)
    requires ready { Ready taps.now ring.old }
    requires slot { s ≡ slot_of taps.now k }
    requires turn { s < length taps.now }
    requires left { k < length row.old }
    ensures { Moved taps.now k 1 ring.old row.old ring.new row.new }
{
    let x = row[k];
    let sum = sum_one(ring, s, taps, x);
    ring[s] = x;
    row[k] = sum;
}

fn sum_one(ring: &[f64], s: usize, taps: &[f64], x: f64) -> f64
    requires ready { Ready taps.now ring.now }
    requires turn { s < length taps.now }
    ensures { result ≡ output taps.now ring.now s (x ∷ []) 0 }
{
    let n = taps.len();
    let mut sum = 0.0;
    for j in 0..s {
        sum = taps[s - j] * ring[j] + sum;
    }
    sum = taps[0] * x + sum;
    for j in s + 1..n {
        sum = taps[n + s - j] * ring[j] + sum;
    }
    sum
}

// The same for the k-th sample and the next, which goes to slot s + 1.
pub(crate) fn two(row: &mut [f64], ring: &mut [f64], taps: &[f64], k: usize, s: usize)
    requires ready { Ready taps.now ring.old }
    requires slot { s ≡ slot_of taps.now k }
    requires turn { s + 2 ≤ length taps.now }
    requires left { k + 2 ≤ length row.old }
    ensures { Moved taps.now k 2 ring.old row.old ring.new row.new }
{
    let x = row[k];
    let y = row[k + 1];
    let sums = sum_two(ring, s, taps, x, y);
    ring[s] = x;
    ring[s + 1] = y;
    row[k] = sums.first;
    row[k + 1] = sums.second;
}

#[derive(Clone, Copy, Default)]
struct Sums {
    first: f64,
    second: f64,
}

// In slot s + 1 the first output has what was there before, the second the new sample.
fn sum_two(ring: &[f64], s: usize, taps: &[f64], x: f64, y: f64) -> Sums
    requires ready { Ready taps.now ring.now }
    requires turn { s + 2 ≤ length taps.now }
    ensures first { result.first ≡ output taps.now ring.now s (x ∷ y ∷ []) 0 }
    ensures second { result.second ≡ output taps.now ring.now s (x ∷ y ∷ []) 1 }
{
    let n = taps.len();
    let mut sums = Sums::default();
    for j in 0..s {
        sums = meet(sums, taps, s - j, ring[j]);
    }
    let old = ring[s + 1];
    sums = Sums {
        first: taps[n - 1] * old + (taps[0] * x + sums.first),
        second: taps[0] * y + (taps[1] * x + sums.second),
    };
    for j in s + 2..n {
        sums = meet(sums, taps, n + s - j, ring[j]);
    }
    sums
}

// Another slot: the first output meets x with the tap t, the second with the next.
fn meet(sums: Sums, taps: &[f64], t: usize, x: f64) -> Sums
    requires within { t + 2 ≤ length taps.now }
    ensures first { result.first ≡ add binary64 (mul binary64 (get_or taps.now t nan) x) sums.first }
    ensures second { result.second ≡ add binary64 (mul binary64 (get_or taps.now (t + 1) nan) x) sums.second }
{
    Sums {
        first: taps[t] * x + sums.first,
        second: taps[t + 1] * x + sums.second,
    }
}
