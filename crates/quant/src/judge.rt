// Two judgements as one.
ghost use Rattle.std.specs.Prelude.{◌≡◌, ◌&&◌};

pub fn both(x: bool, y: bool) -> bool
    ensures { result ≡ (x && y) }
{
    if x {
        return y;
    }
    false
}
