// The fields that four commands share: a channel, a number under its own key, a start and a span.
ghost use Rattle.std.specs.Prelude.{◌≡◌};
ghost use Rattle.fields.specs.Words.{words_of};
ghost use Rattle.job.specs.Turn.{turn_of};

use fields::pair::pair_in;
use fields::value::{name_in, number_in};
use fields::words::count;
use naming::Name;

#[derive(Clone, Copy)]
pub struct Turn {
    pub channel: Name,
    pub number: f64,
    pub start: f64,
    pub span: f64,
}

// `WORD ch=NAME KEY=N start=N span=N`.
#[tactic(auto, unfolding(crate::specs::Turn::turn_of))]
pub fn turn_by(line: &[u8], key: &[u8]) -> Option<Turn>
    ensures { result ≡ turn_of key.now (words_of line.now) }
{
    if count(line) != 5 {
        return None;
    }
    let channel = name_in(line, 1, b"ch=")?;
    let number = number_in(line, 2, key)?;
    let (start, span) = pair_in(line, 3, b"start=", 4, b"span=")?;
    Some(Turn {
        channel,
        number,
        start,
        span,
    })
}
