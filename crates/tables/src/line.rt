// Row b of a formula node, from the columns that it is over and its operands' rows in the words.
ghost use Rattle.std.specs.Prelude.{◌≡◌, false, ◌+◌, ◌*◌, ◌≤◌, ◌<◌, length};
ghost use Rattle.stored.specs.Tree.{formula_op};
ghost use Rattle.tables.specs.Step.{Usable, is_pair, row_of};

use crate::words::row_at;
use rows::count::Comparison;
use rows::gap::gap;
use rows::shape::Symbol;
use rows::{count, shape};
use stored::Node;
use stored::ops::{AND, CHOP, MARK, POINT, SCOUNT, SLEN, STRETCH, SYMBOL, WHOLE};

// ⟨p⟩, [p], [[p]] and {{p}}.
fn shape_row(x: Node, n: usize, first: u64, second: u64, words: &[u64], own: usize, b: usize) -> u64
    requires { (16 ≤ x.op) × (x.op < 20) × (b < n) × (n ≤ 64) }
    ensures { result ≡ row_of (formula_op x.op) x n first second words.now own b }
{
    match x.op {
        POINT => shape::point(first, b, n),
        STRETCH => shape::stretch(first, b, n),
        WHOLE => shape::whole(first, b, n),
        _ => shape::unit(first, b, n),
    }
}

// slen, scount and sdur.
fn count_row(x: Node, n: usize, first: u64, second: u64, words: &[u64], own: usize, b: usize) -> u64
    requires { (24 ≤ x.op) × (x.op < 27) × (b < n) × (n ≤ 64) }
    ensures { result ≡ row_of (formula_op x.op) x n first second words.now own b }
{
    let number = x.b;
    let compared = Comparison::from(x.q);
    match x.op {
        SLEN => count::slen(compared, number, b, n),
        SCOUNT => count::scount(compared, first, number, b, n),
        _ => count::sdur(compared, first, number, b, n),
    }
}

// Row b of an and or an or.
pub fn and_or_row(x: Node, n: usize, words: &[u64], own: usize, b: usize) -> u64
    requires usable { Usable x own }
    requires known_op { (21 ≤ x.op) × (x.op < 23) × (b < n) × (n ≤ 64) × (64 * own ≤ length words.now) }
    ensures { result ≡ row_of (formula_op x.op) x n 0 0 words.now own b }
{
    let left = row_at(words, x.a, b);
    let right = row_at(words, x.b, b);
    if x.op == AND {
        left & right
    } else {
        left | right
    }
}

// Row b of a symbol, a mark or a gap.
pub fn drawing_row(
    x: Node,
    n: usize,
    first: u64,
    second: u64,
    words: &[u64],
    own: usize,
    b: usize,
) -> u64
    requires usable { Usable x own }
    requires known_op { (27 ≤ x.op) × (x.op < 30) × (b < n) × (n ≤ 64) }
    ensures { result ≡ row_of (formula_op x.op) x n first second words.now own b }
{
    match x.op {
        SYMBOL => shape::drawn(Symbol::from(x.q), first, b, n),
        MARK => shape::marked(first, b, n),
        _ => gap(first, second, x.a, x.b, b, n),
    }
}

// Row b of a bracket or a count.
pub fn plain_row(
    x: Node,
    n: usize,
    first: u64,
    second: u64,
    words: &[u64],
    own: usize,
    b: usize,
) -> u64
    requires usable { Usable x own }
    requires known_op { (16 ≤ x.op) × (x.op < 27) × (is_pair x.op ≡ false) × (x.op ≡ 23 → ⊥) × (b < n) × (n ≤ 64) }
    ensures { result ≡ row_of (formula_op x.op) x n first second words.now own b }
{
    if x.op < CHOP {
        shape_row(x, n, first, second, words, own, b)
    } else {
        count_row(x, n, first, second, words, own, b)
    }
}
