// The names of a crosstalk matrix, and what is judged of them.
ghost use Rattle.std.specs.Prelude.{◌≡◌, ◌≤◌, []};
ghost use Rattle.crosstalk.specs.Crosstalk.{names_in, all_names, names_judged, row_of};

use naming::{Name, is_name, same};
use quant::refusal::{Answer, Refusal};
use tables::{Tables, find};

// The first `count` names are there.
#[derive(Clone, Copy)]
pub struct Crosstalk {
    pub count: usize,
    pub names: [Name; 8],
}

pub(crate) fn all_names(c: Crosstalk) -> bool
    requires { c.count ≤ 8 }
    ensures { result ≡ all_names (names_in c) }
{
    c.names[..c.count].iter().all(|name| is_name(*name))
}

// "names taken in reading order": the first that stood before (17) or has no list (18), by its position from 1; done where there is none.
pub(crate) fn names_judged(t: Tables, c: Crosstalk) -> Answer
    requires { c.count ≤ 8 }
    ensures { result ≡ names_judged t [] (names_in c) }
{
    // Document 01 names this form: a nested scan, left by its label.
    let mut answer = Ok(0);
    'scan: for i in 0..c.count {
        for k in 0..i {
            if same(c.names[k], c.names[i]) {
                answer = Err(Refusal::DoubledName.at(i + 1));
                break 'scan;
            }
        }
        if find(t, c.names[i]).is_none() {
            answer = Err(Refusal::NoList.at(i + 1));
            break 'scan;
        }
    }
    answer
}

// Where a channel stands among the names: its row.
pub(crate) fn row_of(c: Crosstalk, channel: Name) -> Option<usize>
    requires { c.count ≤ 8 }
    ensures { result ≡ row_of channel (names_in c) }
{
    c.names[..c.count]
        .iter()
        .position(|name| same(*name, channel))
}
