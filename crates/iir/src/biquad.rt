// A second-order section and its state. The Rust's `Biquad`, with the last output, which its `IirPipeline` keeps.
ghost use Rattle.std.specs.Prelude.{◌≡◌, ◌+◌, ◌*◌, ◌≤◌, length};
ghost use Rattle.iir.specs.Section.{ran, section_at, a0s_judged};

use quant::refusal::{Answer, Refusal};

#[derive(Clone, Copy, Debug, Default, PartialEq)]
pub struct Biquad {
    pub b0: f64,
    pub b1: f64,
    pub b2: f64,
    pub a1: f64,
    pub a2: f64,
    pub s1: f64,
    pub s2: f64,
    pub y: f64,
}

impl Biquad {
    #[tactic(auto, unfolding(crate::specs::Section::ran))]
    pub(crate) fn run(self, x: f64) -> Biquad
        ensures { result ≡ ran self x }
    {
        let y = self.b0 * x + self.s1;
        Biquad {
            s1: self.b1 * x - self.a1 * y + self.s2,
            s2: self.b2 * x - self.a2 * y,
            y,
            ..self
        }
    }
}

// Section k of the numbers, its state zero. The fourth of its six numbers, a0, is 1 where a row is filtered, so that nothing is divided by it.
pub(crate) fn section(numbers: &[f64], k: usize) -> Biquad
    requires { 6 * k + 6 ≤ length numbers.now }
    ensures { result ≡ section_at numbers.now k }
{
    let at = 6 * k;
    Biquad {
        b0: numbers[at],
        b1: numbers[at + 1],
        b2: numbers[at + 2],
        a1: numbers[at + 4],
        a2: numbers[at + 5],
        ..Biquad::default()
    }
}

// 22 at the first section, counted from 0, whose a0 does not equal 1; done where there is none.
pub(crate) fn a0s_judged(numbers: &[f64]) -> Answer
    ensures { result ≡ a0s_judged numbers.now }
{
    for k in 0..numbers.len() / 6 {
        if numbers[6 * k + 3] != 1.0 {
            return Err(Refusal::WrongA0.at(k));
        }
    }
    Ok(0)
}
