// Names among names.
ghost use Rattle.std.specs.Prelude.{◌≡◌};
ghost use Rattle.naming.specs.Name.{is_in};
ghost use Rattle.sheet.specs.Sheet.{blank, position};

use naming::{Name, same};

// What stands where no name is.
#[tactic(auto, unfolding(crate::specs::Sheet::blank))]
pub fn blank() -> Name
    ensures { result ≡ blank }
{
    Name {
        first: 0,
        second: 0,
        len: 0,
    }
}

// Where a name first stands among others; their count where it does not.
pub(crate) fn place(n: Name, names: &[Name]) -> usize
    ensures { result ≡ position n names.now }
{
    names
        .iter()
        .position(|m| same(*m, n))
        .unwrap_or(names.len())
}

// Whether a name is one of others.
pub(crate) fn stands_in(n: Name, names: &[Name]) -> bool
    ensures { result ≡ is_in n names.now }
{
    names.iter().any(|m| same(*m, n))
}
