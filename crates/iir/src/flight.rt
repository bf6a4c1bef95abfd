// A row through one to four sections, from the states that they have.
// Sections in flight: while the first takes a sample, each other takes what the one before it gave for the sample before. So none waits
// for another, and the row goes through four sections about as fast as through one.
// Kept: a function for each number of sections; over an array of N, the launch, each turn and the landing would each be a loop over the sections, which is no plainer.
ghost use Rattle.std.specs.Prelude.{◌≡◌, [], ◌∷◌, ◌≤◌, length, drop};
ghost use Rattle.iir.specs.Filter.{cascade};
ghost use Rattle.iir.specs.Section.{ran};
ghost use Rattle.iir.specs.Flight.{through, onward};

use super::biquad::Biquad;

pub(crate) fn one(row: &mut [f64], a: Biquad)
    ensures { row.new ≡ through a row.old }
{
    let mut p = a;
    for x in row.iter_mut() {
        p = p.run(*x);
        *x = p.y;
    }
}

// A section for each of two rows.
#[derive(Clone, Copy)]
pub struct Beside {
    pub i: Biquad,
    pub q: Biquad,
}

impl Beside {
    fn run(self, x: f64, z: f64) -> Beside
        ensures { result ≡ record { i = ran self.i x; q = ran self.q z } }
    {
        Beside {
            i: self.i.run(x),
            q: self.q.run(z),
        }
    }
}

// Two rows side by side, each through a section of its own, alike at the start. So neither row waits for the other.
pub(crate) fn side_by_side(i: &mut [f64], q: &mut [f64], a: Biquad)
    requires { length i.old ≡ length q.old }
    ensures i_after { i.new ≡ through a i.old }
    ensures q_after { q.new ≡ through a q.old }
{
    let mut p = Beside { i: a, q: a };
    for k in 0..i.len() {
        p = p.run(i[k], q[k]);
        i[k] = p.i.y;
        q[k] = p.q.y;
    }
}

pub(crate) fn two(row: &mut [f64], a: Biquad, b: Biquad)
    ensures { row.new ≡ cascade (a ∷ b ∷ []) row.old }
{
    if row.is_empty() {
        return;
    }
    let p = a.run(row[0]);
    two_in_flight(row, p, b);
}

pub(crate) fn three(row: &mut [f64], a: Biquad, b: Biquad, c: Biquad)
    ensures { row.new ≡ cascade (a ∷ b ∷ c ∷ []) row.old }
{
    if row.len() < 2 {
        one(row, a);
        two(row, b, c);
        return;
    }
    let p = a.run(row[0]);
    let q = b.run(p.y);
    let p = p.run(row[1]);
    three_in_flight(row, p, q, c);
}

pub(crate) fn four(row: &mut [f64], a: Biquad, b: Biquad, c: Biquad, d: Biquad)
    ensures { row.new ≡ cascade (a ∷ b ∷ c ∷ d ∷ []) row.old }
{
    if row.len() < 3 {
        two(row, a, b);
        two(row, c, d);
        return;
    }
    let p = a.run(row[0]);
    let q = b.run(p.y);
    let r = c.run(q.y);
    let p = p.run(row[1]);
    let q = q.run(p.y);
    let p = p.run(row[2]);
    four_in_flight(row, p, q, r, d);
}

// The first section has taken the first sample already.
fn two_in_flight(row: &mut [f64], a: Biquad, b: Biquad)
    requires { 1 ≤ length row.old }
    ensures { row.new ≡ onward a (b ∷ []) (drop 1 row.old) }
{
    let mut p = a;
    let mut q = b;
    let last = row.len() - 1;
    for k in 0..last {
        q = q.run(p.y);
        p = p.run(row[k + 1]);
        row[k] = q.y;
    }
    row[last] = p.y;
    one(&mut row[last..], q);
}

// The first section has taken two samples already, the second one.
fn three_in_flight(row: &mut [f64], a: Biquad, b: Biquad, c: Biquad)
    requires { 2 ≤ length row.old }
    ensures { row.new ≡ onward a (b ∷ c ∷ []) (drop 2 row.old) }
{
    let mut p = a;
    let mut q = b;
    let mut r = c;
    let last = row.len() - 2;
    for k in 0..last {
        r = r.run(q.y);
        q = q.run(p.y);
        p = p.run(row[k + 2]);
        row[k] = r.y;
    }
    row[last + 1] = p.y;
    two_in_flight(&mut row[last..], q, r);
}

// The first section has taken three samples already, the second two, the third one.
fn four_in_flight(row: &mut [f64], a: Biquad, b: Biquad, c: Biquad, d: Biquad)
    requires { 3 ≤ length row.old }
    ensures { row.new ≡ onward a (b ∷ c ∷ d ∷ []) (drop 3 row.old) }
{
    let mut p = a;
    let mut q = b;
    let mut r = c;
    let mut s = d;
    let last = row.len() - 3;
    for k in 0..last {
        s = s.run(r.y);
        r = r.run(q.y);
        q = q.run(p.y);
        p = p.run(row[k + 3]);
        row[k] = s.y;
    }
    row[last + 2] = p.y;
    three_in_flight(&mut row[last..], q, r, s);
}
