// The records of a channel, in a lent slice: by bin, then by time, equal times in order of pushing.
ghost use Rattle.std.specs.Prelude.{◌≡◌, ◌+◌, ltb};
ghost use Rattle.pulse.specs.List.{stays_before, stored};

use quant::complex::Complex;
use quant::quantity::Time;

// `bin` is the place of its bin in the channel.
#[derive(Clone, Copy, Default)]
pub struct Pulse {
    pub bin: usize,
    pub time: Time,
    pub amp: Complex,
    pub drag: Complex,
}

// Puts p among the `count` records from `from` on. Where the slice has no room for it, it stays as it is.
pub fn store(pulses: &mut [Pulse], from: usize, count: usize, p: Pulse)
    ensures { pulses.new ≡ stored from count p pulses.old }
{
    if has_room(pulses.len(), from, count) {
        let mut i = from + count;
        while from < i && !stays_before(pulses[i - 1], p) {
            pulses[i] = pulses[i - 1];
            i -= 1;
        }
        pulses[i] = p;
    }
}

fn has_room(len: usize, from: usize, count: usize) -> bool
    ensures { result ≡ ltb (from + count) len }
{
    count < len && from < len - count
}

// Whether q, pushed earlier, stays before p.
fn stays_before(q: Pulse, p: Pulse) -> bool
    ensures { result ≡ stays_before q p }
{
    q.bin < p.bin || (q.bin == p.bin && q.time.0 <= p.time.0)
}
