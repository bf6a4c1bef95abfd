// Eight outputs at once, whose samples go to eight slots in a row: each has its own sum, in its own ring order. A turn of the loop over the slots
// adds a product to every sum, for which the compiler has wide registers.
ghost use Rattle.std.specs.Prelude.{◌≡◌, ◌+◌, ◌≤◌, ◌<◌, length, get_or, replicate};
ghost use Rattle.std.proofs.lemmas.List.Edits.{sets};
ghost use Rattle.std.specs.Float.{nan, binary64};
ghost use Rattle.std.specs.Float.Ieee.{mul};
ghost use Rattle.exact.specs.Doubles.{nought};
ghost use Rattle.ring.specs.Ring.{slot_of};
ghost use Rattle.ring.specs.Inside.{Ready, crossed, EachAdded, Summed, Moved};

// Filters the eight samples from the k-th on; the first of them goes to slot s.
pub(crate) fn eight(row: &mut [f64], ring: &mut [f64], taps: &[f64], k: usize, s: usize)
    requires ready { Ready taps.now ring.old }
    requires slot { s ≡ slot_of taps.now k }
    requires turn { s + 8 ≤ length taps.now }
    requires left { k + 8 ≤ length row.old }
    ensures { Moved taps.now k 8 ring.old row.old ring.new row.new }
{
    let mut fresh = [0.0; 8];
    put_eight(&mut fresh, 0, &row[k..k + 8]);
    let mut sums = [0.0; 8];
    sum_all(&mut sums, &fresh, ring, taps, s);
    put_eight(ring, s, &fresh);
    put_eight(row, k, &sums);
}

// Puts eight numbers one after the other, from a place on.
// Kept: with `copy_from_slice`, which first asks whether the two overlap, eight taps were slower by a tenth.
fn put_eight(to: &mut [f64], at: usize, from: &[f64])
    requires eight { length from.now ≡ 8 }
    requires room { at + 8 ≤ length to.old }
    ensures { to.new ≡ sets to.old at from.now }
{
    for m in 0..8 {
        to[at + m] = from[m];
    }
}

// The slots in their order: those before the eight, the eight, those after. An output's tap goes back from its own slot, and round at the first tap.
fn sum_all(sums: &mut [f64; 8], fresh: &[f64; 8], ring: &[f64], taps: &[f64], s: usize)
    requires ready { Ready taps.now ring.now }
    requires turn { s + 8 ≤ length taps.now }
    requires eight { length fresh.now ≡ 8 }
    requires none { sums.old ≡ replicate 8 nought }
    ensures { Summed taps.now ring.now s fresh.now (length taps.now) sums.new }
{
    let n = taps.len();
    for j in 0..s {
        add_slot(sums, taps, s - j, ring[j]);
    }
    add_fresh(sums, fresh, ring, taps, s);
    for j in s + 8..n {
        add_slot(sums, taps, n + s - j, ring[j]);
    }
}

// A slot outside the eight: all outputs find x there, and output p meets it with the tap t + p.
fn add_slot(sums: &mut [f64; 8], taps: &[f64], t: usize, x: f64)
    requires within { t + 8 ≤ length taps.now }
    requires room { length sums.old ≡ 8 }
    ensures { EachAdded (λ p. mul binary64 (get_or taps.now (t + p) nan) x) sums.old sums.new }
{
    for p in 0..8 {
        sums[p] = taps[t + p] * x + sums[p];
    }
}

// The eight slots.
fn add_fresh(sums: &mut [f64; 8], fresh: &[f64; 8], ring: &[f64], taps: &[f64], s: usize)
    requires ready { Ready taps.now ring.now }
    requires turn { s + 8 ≤ length taps.now }
    requires eight { length fresh.now ≡ 8 }
    requires summed { Summed taps.now ring.now s fresh.now s sums.old }
    ensures { Summed taps.now ring.now s fresh.now (s + 8) sums.new }
{
    for m in 0..8 {
        add_crossed(sums, taps, m, ring[s + m], fresh[m]);
    }
}

// The m-th of them.
fn add_crossed(sums: &mut [f64; 8], taps: &[f64], m: usize, old: f64, new: f64)
    requires slot { m < 8 }
    requires many { 8 ≤ length taps.now }
    requires room { length sums.old ≡ 8 }
    ensures { EachAdded (crossed taps.now m old new) sums.old sums.new }
{
    for p in 0..8 {
        sums[p] = cross(taps, m, old, new, p) + sums[p];
    }
}

// The outputs before the m-th still find the old sample there, the others the new one.
fn cross(taps: &[f64], m: usize, old: f64, new: f64, p: usize) -> f64
    requires slot { m < 8 }
    requires output { p < 8 }
    requires many { 8 ≤ length taps.now }
    ensures { result ≡ crossed taps.now m old new p }
{
    if p < m {
        taps[taps.len() - (m - p)] * old
    } else {
        taps[p - m] * new
    }
}
