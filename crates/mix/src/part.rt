// The part of the rows that a pulse is added onto.
ghost use Rattle.std.specs.Prelude.{◌≡◌};
ghost use Rattle.mix.specs.Part.{holds, part_fits};

// Whether `count` samples from `start` on lie within one row of i samples, or within two of i and of q.
pub(crate) fn part_fits(rows: usize, i: usize, q: usize, start: usize, count: usize) -> bool
    ensures { result ≡ part_fits rows i q start count }
{
    match rows {
        1 => lies_within(i, start, count),
        2 => lies_within(i, start, count) && lies_within(q, start, count),
        _ => false,
    }
}

fn lies_within(len: usize, start: usize, count: usize) -> bool
    ensures { result ≡ holds len start count }
{
    count <= len && start <= len - count
}
