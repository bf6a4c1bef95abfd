// A channel's oscillator: three numbers, passed and returned by each command. The Rust's `OscState` in src/executor.rs.
ghost use Rattle.std.specs.Prelude.{◌≡◌};
ghost use Rattle.executor.specs.Osc.{total_of, phase_at, with_phase, with_both, moved, shifted_phase, set_phase_to, retuned, shifted_freq, set_freq_to, swapped_by, swapped_phases};

use ieee::finite::is_finite;
use quant::quantity::{Frequency, Phase, Quantity, Time};

// Base frequency, delta frequency, phase.
#[repr(C)]
#[derive(Clone, Copy, Debug, Default, PartialEq)]
pub struct OscState {
    pub base: Frequency,
    pub delta: Frequency,
    pub phase: Phase,
}

// The state after a command. Where a number worked out on the way is not finite the command is refused, and the state is the one that came.
// `moved_answer` and `swapped_answer` say by which number.
// Kept: the C interface passes the flag and the state by value.
#[repr(C)]
#[derive(Clone, Copy, Debug, PartialEq)]
pub struct Moved {
    pub refused: bool,
    pub osc: OscState,
}

// The same of two channels.
// Kept: the C interface, as above.
#[repr(C)]
#[derive(Clone, Copy, Debug, PartialEq)]
pub struct Swapped {
    pub refused: bool,
    pub one: OscState,
    pub two: OscState,
}

impl OscState {
    pub fn total_freq(self) -> Frequency
        ensures { result.0 ≡ total_of self }
    {
        self.base.add(self.delta)
    }

    pub fn phase_at(self, time: Time) -> Phase
        ensures { result.0 ≡ phase_at self time.0 }
    {
        let turned = self.total_freq().mul_time(time);
        self.phase.add(turned)
    }

    pub fn with_time_shift(self, time: Time) -> OscState
        ensures { result ≡ with_phase self (phase_at self time.0) }
    {
        self.with_phase(self.phase_at(time))
    }

    pub fn shift_phase(self, by: Phase) -> Moved
        ensures { result ≡ shifted_phase self by.0 }
    {
        let phase = self.phase.add(by);
        let fine = is_finite(phase.0);
        self.moved_to(fine, self.with_phase(phase))
    }

    pub fn set_phase(self, to: Phase, time: Time) -> Moved
        ensures { result ≡ set_phase_to self to.0 time.0 }
    {
        let turned = self.delta.mul_time(time);
        let phase = to.sub(turned);
        let fine = is_finite(turned.0) && is_finite(phase.0);
        self.moved_to(fine, self.with_phase(phase))
    }

    pub fn shift_freq(self, by: Frequency, time: Time) -> Moved
        ensures { result ≡ shifted_freq self by.0 time.0 }
    {
        let delta = self.delta.add(by);
        self.retune(delta, by.neg().mul_time(time), delta)
    }

    pub fn set_freq(self, to: Frequency, time: Time) -> Moved
        ensures { result ≡ set_freq_to self to.0 time.0 }
    {
        let change = to.sub(self.delta);
        self.retune(change, change.neg().mul_time(time), to)
    }

    // With another delta, and the phase turned.
    fn retune(self, judged: Frequency, turned: Phase, delta: Frequency) -> Moved
        ensures { result ≡ retuned self judged.0 turned.0 delta.0 }
    {
        let phase = self.phase.add(turned);
        let fine = is_finite(judged.0) && is_finite(turned.0) && is_finite(phase.0);
        self.moved_to(fine, self.with_both(delta, phase))
    }

    fn with_both(self, delta: Frequency, phase: Phase) -> OscState
        ensures { result ≡ with_both self delta.0 phase.0 }
    {
        OscState {
            delta,
            phase,
            ..self
        }
    }

    fn with_phase(self, phase: Phase) -> OscState
        ensures { result ≡ with_phase self phase.0 }
    {
        OscState { phase, ..self }
    }

    fn moved_to(self, fine: bool, after: OscState) -> Moved
        ensures { result ≡ moved self fine after }
    {
        Moved {
            refused: !fine,
            osc: if fine { after } else { self },
        }
    }
}

// The phases change places, each turned by how far the other's frequency is ahead.
pub fn swap_phase(one: OscState, two: OscState, time: Time) -> Swapped
    ensures { result ≡ swapped_phases one two time.0 }
{
    let first = one.total_freq();
    let second = two.total_freq();
    let ahead = first.sub(second);
    let turned = ahead.mul_time(time);
    let fine = is_finite(first.0)
        && is_finite(second.0)
        && is_finite(ahead.0)
        && is_finite(turned.0);
    swap_turned(one, two, fine, turned)
}

fn swap_turned(one: OscState, two: OscState, fine: bool, turned: Phase) -> Swapped
    ensures { result ≡ swapped_by one two fine turned.0 }
{
    let p = two.phase.sub(turned);
    let q = one.phase.add(turned);
    if fine && is_finite(p.0) && is_finite(q.0) {
        Swapped {
            refused: false,
            one: one.with_phase(p),
            two: two.with_phase(q),
        }
    } else {
        Swapped {
            refused: true,
            one,
            two,
        }
    }
}
