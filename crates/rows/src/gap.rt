// Rows of a gap between two names.
ghost use Rattle.std.specs.Prelude.{◌≡◌, ◌&&◌, ◌-◌, ◌<◌, ◌≤◌, leb};
ghost use Rattle.semantics.specs.Cycles.{some_in};
ghost use Rattle.semantics.specs.Proposition.{bit};
ghost use Rattle.rows.specs.Row.{word, row, joined, shifted};

use crate::cycles::Cycles;
use crate::mask::{before_first, below, cycles_from, up_to};

// The distances from `least` to `most`.
fn window(least: usize, most: usize) -> u64
    ensures { result ≡ word 64 (λ d. leb least d && leb d most) }
{
    up_to(most) & !below(least)
}

// The cycles at one of the given distances after a cycle of the set.
fn spread(set: u64, distances: u64) -> u64
    ensures { result ≡ joined set (shifted distances) }
{
    let mut out = 0;
    for i in Cycles(set) {
        out |= distances << i;
    }
    out
}

// Cycles x ≤ y of the interval, x in the first column, y in the second, and y - x from `least` to `most`.
pub fn gap(first: u64, second: u64, least: usize, most: usize, b: usize, n: usize) -> u64
    requires { (b < n) × (n ≤ 64) }
    ensures { result ≡ row n (λ b e. some_in b e (λ x. bit first x && some_in x e (λ y. bit second y && (leb least (y - x) && leb (y - x) most)))) b }
{
    let starts = first & !below(b);
    let ends = second & spread(starts, window(least, most));
    cycles_from(b, n) & !before_first(ends)
}
