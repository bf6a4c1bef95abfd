// The lists that take part in a sampling: for each the place of its channel in the tables, and its factor.

// The first `count` places and factors are there.
#[derive(Clone, Copy, Default)]
pub struct Taking {
    pub count: usize,
    pub places: [usize; 8],
    pub factors: [f64; 8],
}
