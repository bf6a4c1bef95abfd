// One pulse onto the rows. An envelope that the scratch holds already is not worked out again: the Rust has a cache for this.
ghost use Rattle.std.specs.Prelude.{◌≡◌, ◌≤◌, ◌+◌, ◌-◌, true, length, Ok, Some};
ghost use Rattle.rows.specs.Rows.{rows_fit};
ghost use Rattle.shape.specs.Envelope.{enveloped_of, scratch_after};
ghost use Rattle.placing.specs.Judged.{judged};
ghost use Rattle.mixdown.specs.Sampled.{rowed, parts_at, added_to, with_shape};
ghost use Rattle.mixdown.specs.Holding.{Holds, Told};

use mix::{add_envelope, add_plateau};
use placing::{Curved, Judged, judge};
use pulse::bin::Bin;
use pulse::list::Pulse;
use quant::refusal::Refusal;
use quant::settings::Settings;
use shape::envelope::envelope;

// `held` is the offset of the envelope that the scratch holds, if it holds one of the bin at hand; so is the answer.
pub(crate) fn add_pulse(
    s: Settings,
    b: Bin,
    numbers: &[f64],
    p: Pulse,
    held: Option<f64>,
    rows: usize,
    i: &mut [f64],
    q: &mut [f64],
    scratch: &mut [f64],
) -> Result<Option<f64>, Refusal>
    requires { (rows_fit rows (length i.old) (length q.old) ≡ true) × (length i.old ≤ length scratch.old) × Holds s b numbers.now held scratch.old }
    ensures scratch_after { rowed i.new q.new scratch.new ≡ added_to s b numbers.now rows (judged s b numbers.now p (length i.old)) (rowed i.old q.old scratch.old) }
    ensures told { Told s b numbers.now (judged s b numbers.now p (length i.old)) result scratch.new }
{
    match judge(s, b, numbers, p, i.len())? {
        Judged::Plateau(f) => {
            add_plateau(rows, i, q, f.start, f.count, f.carrier, f.rotation);
            Ok(held)
        }
        Judged::Shaped(c) => {
            add_shaped(s, b, numbers, c, held, rows, i, q, scratch);
            Ok(Some(c.offset))
        }
    }
}

// A pulse with a shape, whose points were judged: its envelope into the scratch, and from there onto the rows.
fn add_shaped(
    s: Settings,
    b: Bin,
    numbers: &[f64],
    c: Curved,
    held: Option<f64>,
    rows: usize,
    i: &mut [f64],
    q: &mut [f64],
    scratch: &mut [f64],
)
    requires { (c.start + c.points ≤ length i.old) × (enveloped_of b.envelope.shape numbers.now (parts_at s b c.offset (length i.old - c.start)) ≡ Ok c.points) × (length i.old ≤ length scratch.old) × Holds s b numbers.now held scratch.old }
    ensures scratch_after { rowed i.new q.new scratch.new ≡ with_shape s b numbers.now rows c (rowed i.old q.old scratch.old) }
    ensures holds { Holds s b numbers.now (Some c.offset) scratch.new }
{
    let start = c.start;
    let points = c.points;
    hold(s, b, numbers, c.offset, held, i.len() - start, scratch);
    add_envelope(
        rows,
        i,
        q,
        start,
        &scratch[0..points],
        c.amp,
        c.drag,
        c.carrier,
        c.rotation,
    );
}

// The envelope at an offset into the scratch, unless it is there.
fn hold(
    s: Settings,
    b: Bin,
    numbers: &[f64],
    offset: f64,
    held: Option<f64>,
    room: usize,
    scratch: &mut [f64],
)
    requires { (room ≤ length scratch.old) × Holds s b numbers.now held scratch.old }
    ensures { scratch.new ≡ scratch_after b.envelope.shape numbers.now (parts_at s b offset room) scratch.old }
{
    if let Some(at) = held {
        if same_offset(at, offset) {
            return;
        }
    }
    let e = b.envelope;
    // A refusal was told when the pulse was judged.
    let _ = envelope(
        e.shape, numbers, e.width, e.plateau, offset, s.rate, s.dt, room, scratch,
    );
}

// Whether two offsets have the same bits. No NaN has. Kept: `==` alone takes 0 for -0.
fn same_offset(a: f64, b: f64) -> bool
    ensures { result ≡ true → a ≡ b }
{
    a == a && b == b && f64::to_bits(a) == f64::to_bits(b)
}
