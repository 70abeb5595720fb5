// Rows of the formulas that compare a length or a count with a number.
ghost use Rattle.std.specs.Prelude.{◌≡◌, ◌+◌, ◌-◌, ◌<◌, ◌≤◌};
ghost use Rattle.semantics.specs.Cycles.{count_from, count_in};
ghost use Rattle.semantics.specs.Proposition.{bit};
ghost use Rattle.semantics.specs.Formula.{compared, at_least, above};
ghost use Rattle.rows.specs.Row.{row};
ghost use Rattle.rows.specs.Symbols.{comparison_of, comparison_number, comparison_numbered, counted_to, After, Distant, Counted};

use crate::mask::{ALL, below, cycles_from, up_to};

// <, ≤, =, ≥, > with the numbers that document 01 gives them.
#[derive(Clone, Copy)]
pub enum Comparison {
    Below = 0,
    AtMost = 1,
    Equal = 2,
    AtLeast = 3,
    Above = 4,
}

impl From<Comparison> for usize {
    ghost from_gives = { λ comparison q. q ≡ comparison_number comparison };

    fn from(comparison: Comparison) -> usize {
        comparison as usize
    }
}

// Any number has a comparison, as the meanings of nodes say it: one that document 01 gives to none stands for the first. A `TryFrom`
// would have an Err that nobody can take, since rule 6 keeps the numbers of a sheet below 5.
impl From<usize> for Comparison {
    ghost from_gives = { λ q comparison. comparison_of comparison ≡ comparison_numbered q };

    fn from(q: usize) -> Comparison {
        match q {
            1 => Comparison::AtMost,
            2 => Comparison::Equal,
            3 => Comparison::AtLeast,
            4 => Comparison::Above,
            _ => Comparison::Below,
        }
    }
}

// The cycles e from b on, and others before it, where the column has more than `number` cycles from b to e, e itself counted if `last`
// is 1. The ones say whether there are so many at all. If so, the lowest are dropped one by one: the count is passed at the first cycle
// that is left without `number` of them.
fn more_than(column: u64, number: usize, last: usize, b: usize) -> u64
    requires { last ≤ 1 }
    ensures { Counted above column number last b result }
{
    let mut left = column & !below(b);
    if left.count_ones() as usize <= number {
        return 0;
    }
    for _ in 0..number {
        left &= left - 1;
    }
    !below(left.trailing_zeros() as usize + 1 - last)
}

// The same, where it has at least `number`.
fn at_least(column: u64, number: usize, last: usize, b: usize) -> u64
    requires { last ≤ 1 }
    ensures { Counted at_least column number last b result }
{
    if number == 0 {
        ALL
    } else {
        more_than(column, number - 1, last, b)
    }
}

// The same, where the count passes.
fn passing(comparison: Comparison, column: u64, number: usize, last: usize, b: usize) -> u64
    requires { last ≤ 1 }
    ensures { Counted (comparison_of comparison) column number last b result }
{
    match comparison {
        Comparison::Below => !at_least(column, number, last, b),
        Comparison::AtMost => !more_than(column, number, last, b),
        Comparison::Equal => {
            at_least(column, number, last, b) & !more_than(column, number, last, b)
        }
        Comparison::AtLeast => at_least(column, number, last, b),
        Comparison::Above => more_than(column, number, last, b),
    }
}

// The cycles of [b,e] in a column, e itself counted if `last` is 1, compared with a number.
fn counted(
    comparison: Comparison,
    column: u64,
    number: usize,
    last: usize,
    b: usize,
    n: usize,
) -> u64
    requires { (b < n) × (n ≤ 64) × (last ≤ 1) }
    ensures { result ≡ row n (counted_to (comparison_of comparison) column number last) b }
{
    cycles_from(b, n) & passing(comparison, column, number, last, b)
}

// The cycle `number` after b, or one past all where a row has none so late.
fn cycle_after(b: usize, number: usize) -> usize
    requires { b < 64 }
    ensures { After b number result }
{
    if number < 64 { b + number } else { 128 }
}

// The cycles from b on, and others before it, whose distance from b passes.
fn distant(comparison: Comparison, b: usize, number: usize) -> u64
    requires { b < 64 }
    ensures { Distant (comparison_of comparison) b number result }
{
    let at = cycle_after(b, number);
    match comparison {
        Comparison::Below => below(at),
        Comparison::AtMost => up_to(at),
        Comparison::Equal => up_to(at) & !below(at),
        Comparison::AtLeast => !below(at),
        Comparison::Above => !up_to(at),
    }
}

// The length of the interval.
pub fn slen(comparison: Comparison, number: usize, b: usize, n: usize) -> u64
    requires { (b < n) × (n ≤ 64) }
    ensures { result ≡ row n (λ b e. compared (comparison_of comparison) (e - b) number) b }
{
    cycles_from(b, n) & distant(comparison, b, number)
}

// The cycles where the proposition holds, e counted.
pub fn scount(comparison: Comparison, column: u64, number: usize, b: usize, n: usize) -> u64
    requires { (b < n) × (n ≤ 64) }
    ensures { result ≡ row n (λ b e. compared (comparison_of comparison) (count_in b e (bit column)) number) b }
{
    counted(comparison, column, number, 1, b, n)
}

// The same, e not counted.
pub fn sdur(comparison: Comparison, column: u64, number: usize, b: usize, n: usize) -> u64
    requires { (b < n) × (n ≤ 64) }
    ensures { result ≡ row n (λ b e. compared (comparison_of comparison) (count_from b e (bit column)) number) b }
{
    counted(comparison, column, number, 0, b, n)
}
