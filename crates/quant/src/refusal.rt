// What a call answers: done, with a count, or refused, with the number of document 01's table and a place.
ghost use Rattle.std.specs.Prelude.{◌≡◌};
ghost use Rattle.quant.specs.Refusal.{number_of, code_of};

// One case for each number of document 01's table and of document 02, in their order: `number_of` gives the number. No case gives 14: 17, 18 and 19
// are told instead.
#[derive(Clone, Copy, Debug, PartialEq, Eq)]
pub enum Refusal {
    // sample rate, 1/rate, delay, tolerance or align level unfit
    Unfit = 1,
    // a number that is not finite, a width below 0, or a name that breaks the rule
    Malformed = 2,
    // a new channel, shape, bin or pulse meets a full table
    Full = 3,
    // the required duration is over the span and the tolerance
    Oversize = 4,
    // shape name unknown
    UnknownShape = 5,
    // plateau below 0
    NegativePlateau = 6,
    // channel unknown
    UnknownChannel = 7,
    // a number worked out on the way is not finite
    NotFinite = 8,
    // aligned start below 0
    BeforeRow = 9,
    // start index not below the row length
    StartPastRow = 10,
    // shaped pulse with t1 < 0
    ShapeTooShort = 11,
    // end index over the row length
    EndPastRow = 12,
    // a lent buffer, command list, row, matrix, tap or section count has a wrong size
    WrongSize = 13,
    // a sheet breaks its layout
    Layout = 15,
    // a spline's knots fall, or its counts are wrong
    WrongSpline = 16,
    // a crosstalk name stood before
    DoubledName = 17,
    // a crosstalk name has no list
    NoList = 18,
    // a sheet's row is no column
    NoColumn = 19,
    // a filter section's a0 does not equal 1
    WrongA0 = 22,
}

// A refusal and its place.
#[derive(Clone, Copy, Debug, PartialEq, Eq)]
pub struct Refused {
    pub why: Refusal,
    pub place: usize,
}

// The count of commands run or pulses added; or the refusal and its place. `reply_of` gives number, place and count.
pub type Answer = Result<usize, Refused>;

impl Refusal {
    pub fn at(self, place: usize) -> Refused
        ensures { result ≡ record { why = self; place = place } }
    {
        Refused { why: self, place }
    }
}

pub fn number(r: Refusal) -> usize
    ensures { result ≡ number_of r }
{
    r as usize
}

// An answer as one number, for callers in C: 0 where the call is done.
pub fn code(a: Answer) -> usize
    ensures { result ≡ code_of a }
{
    match a {
        Ok(_) => 0,
        Err(refused) => number(refused.why),
    }
}
