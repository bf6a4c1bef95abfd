// The lists that take part.
ghost use Rattle.std.specs.Prelude.{◌≡◌, ◌≤◌, ◌<◌, ◌*◌, length};
ghost use Rattle.merge.specs.Taking.{packed};
ghost use Rattle.crosstalk.specs.Crosstalk.{names_in, parts_for, row_parts, own_parts, pushed};

use super::names::{Crosstalk, row_of};
use merge::taking::Taking;
use naming::Name;
use tables::{Tables, find};

// "A channel among the names takes its row"; "A channel not named takes its own list".
#[tactic(auto, unfolding(crate::specs::Crosstalk::parts_at))]
pub(crate) fn parts_for(t: Tables, channel: Name, c: Crosstalk, factors: &[f64]) -> Taking
    requires count_bound { c.count ≤ 8 }
    requires count_in_bounds { c.count * c.count ≤ length factors.now }
    ensures { result ≡ packed (parts_for t channel c factors.now) }
{
    match row_of(c, channel) {
        Some(row) => {
            let n = c.count;
            let from = row * n;
            row_parts(t, c, &factors[from..from + n])
        }
        None => own(t, channel),
    }
}

// "factor 0 skips a list".
fn row_parts(t: Tables, c: Crosstalk, row: &[f64]) -> Taking
    requires count_bound { c.count ≤ 8 }
    requires row_len { length row.now ≡ c.count }
    ensures { result ≡ packed (row_parts t (names_in c) row.now) }
{
    let mut taking = Taking::default();
    for (k, factor) in row.iter().enumerate() {
        if *factor != 0.0 {
            taking = with_part(taking, find(t, c.names[k]), *factor);
        }
    }
    taking
}

fn own(t: Tables, channel: Name) -> Taking
    ensures { result ≡ packed (own_parts t channel) }
{
    with_part(Taking::default(), find(t, channel), 1.0)
}

#[tactic(auto, unfolding(crate::specs::Crosstalk::pushed))]
fn with_part(taking: Taking, at: Option<usize>, factor: f64) -> Taking
    requires { taking.count < 8 }
    ensures { result ≡ pushed taking at factor }
{
    let Some(place) = at else {
        return taking;
    };
    let mut longer = taking;
    let n = taking.count;
    longer.places[n] = place;
    longer.factors[n] = factor;
    longer.count = n + 1;
    longer
}
