// Rows joined from rows: chop and star.
ghost use Rattle.std.specs.Prelude.{◌≡◌, ◌≤◌, length, get_or};
ghost use Rattle.rows.specs.Row.{joined};

use crate::cycles::Cycles;

// All rows of `second` that start where an interval of `row` ends: the row of a chop.
pub fn join(row: u64, second: &[u64]) -> u64
    requires { 64 ≤ length second.now }
    ensures { result ≡ joined row (λ i. get_or second.now i 0) }
{
    let mut out = 0;
    for i in Cycles(row) {
        out |= second[i];
    }
    out
}

// The same, where `kept` is joined already, from the ends in `had`: a row that has all of these joins only what starts at its others.
pub fn join_more(row: u64, had: u64, kept: u64, second: &[u64]) -> u64
    requires { (64 ≤ length second.now) × (kept ≡ joined had (λ i. get_or second.now i 0)) }
    ensures { result ≡ joined row (λ i. get_or second.now i 0) }
{
    let (left, out) = if had & row == had {
        (row ^ had, kept)
    } else {
        (row, 0)
    };
    out | join(left, second)
}
