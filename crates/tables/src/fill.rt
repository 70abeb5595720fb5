// Fills of the words: every node that reaches a name that moved, in the order of the nodes.
ghost use Rattle.std.specs.Prelude.{ℕ, ◌≡◌, false, ◌+◌, ◌*◌, ◌≤◌, ◌<◌, length, slice_index};
ghost use Rattle.rows.specs.Row.{joined, starred};
ghost use Rattle.traces.specs.Columns.{trace_of, marks_of};
ghost use Rattle.stored.specs.Node.{node_at};
ghost use Rattle.tables.specs.Table.{Inside, Tables, row_at};
ghost use Rattle.stored.specs.Tree.{formula_op};
ghost use Rattle.tables.specs.Step.{Usable, Rows, is_pair, row_of, first_column, second_column};
ghost use Rattle.tables.specs.Ready.{Given, Ready, Before, Filled, Kept, with_name, changed, with_names, changed_names};

use crate::column;
use crate::line::{and_or_row, drawing_row, plain_row};
use crate::words::{joined_at, row_at};
use rows::join::join_more;
use rows::mask::{below, only};
use stored::Node;
use stored::layout::MOST_NODES;
use stored::masks::name_mask;
use stored::nodes::{Sort, node_at, sort_of};
use stored::ops::{AND, CHOP, GAP, MARK, OR, STAR, SYMBOL};
use traces::trace::FIRST_NAME;

// Each row of a node below n, by a function of its cycle.
fn put_each<F: Fn(usize) -> u64>(own: &mut [u64], n: usize, row: F)
    requires callable { (b : ℕ) → b < n → F.pre row b }
    requires long_enough { n ≤ length own.old }
    ensures { (b : ℕ) → b < n → F.post row b (slice_index own.new b) }
{
    for b in 0..n {
        own[b] = row(b);
    }
}

// The rows of a chop below n, the last first, where none of them has an end yet. A row of the first operand often has all ends of the
// one after it, as in a stretch: what those joined is kept, and only what starts at its other ends is joined to it. Where it has no end,
// nothing is written.
fn put_joined(x: Node, n: usize, before: &[u64], own: &mut [u64])
    requires operands { (64 * x.a + 64 ≤ length before.now) × (64 * x.b + 64 ≤ length before.now) }
    requires long_enough { (n ≤ 64) × (64 ≤ length own.old) }
    requires empty { (b : ℕ) → b < n → slice_index own.old b ≡ 0 }
    ensures { (b : ℕ) → b < n → slice_index own.new b ≡ joined (row_at before.now x.a b) (row_at before.now x.b) }
{
    let mut had: u64 = 0;
    let mut kept: u64 = 0;
    for b in (0..n).rev() {
        let ends = row_at(before, x.a, b);
        if ends != 0 {
            kept = joined_at(ends, had, kept, before, x.b);
            had = ends;
            own[b] = kept;
        }
    }
}

// The rows of a chop below n. They are cleared by a plain loop: with std's `fill` sheets of chops took up to 1.4 times as long, by where
// the loop after it then stood. Not inlined, so that other code doesn't move that loop.
#[inline(never)]
fn put_chop(x: Node, n: usize, before: &[u64], own: &mut [u64])
    requires operands { (64 * x.a + 64 ≤ length before.now) × (64 * x.b + 64 ≤ length before.now) }
    requires long_enough { (n ≤ 64) × (64 ≤ length own.old) }
    ensures { (b : ℕ) → b < n → slice_index own.new b ≡ joined (row_at before.now x.a b) (row_at before.now x.b) }
{
    for row in own[..n].iter_mut() {
        *row = 0;
    }
    put_joined(x, n, before, own);
}

// The rows of a star below n: row b has b itself and the star's own rows that start where an interval of its formula from b ends, later
// than b. As in a chop, what the links of the row after it joined is kept.
fn put_star(x: Node, n: usize, before: &[u64], own: &mut [u64])
    requires operand { 64 * x.a + 64 ≤ length before.now }
    requires long_enough { (n ≤ 64) × (64 ≤ length own.old) }
    ensures { (b : ℕ) → b < n → slice_index own.new b ≡ starred (row_at before.now x.a b) (slice_index own.new) b }
{
    let mut had: u64 = 0;
    let mut kept: u64 = 0;
    for b in (0..n).rev() {
        let later = row_at(before, x.a, b) & !below(b + 1);
        kept = join_more(later, had, kept, own);
        had = later;
        own[b] = only(b) | kept;
    }
}

// The rows of an and or an or below n.
fn put_and_or(x: Node, i: usize, n: usize, before: &[u64], own: &mut [u64])
    requires usable { Usable x i }
    requires known_op { (21 ≤ x.op) × (x.op < 23) × (n ≤ 64) }
    requires long_enough { (64 * i ≤ length before.now) × (64 ≤ length own.old) }
    ensures { (b : ℕ) → b < n → slice_index own.new b ≡ row_of (formula_op x.op) x n 0 0 before.now i b }
{
    put_each(own, n, |b| and_or_row(x, n, before, i, b));
}

// The rows of a symbol, a mark or a gap below n.
fn put_drawing(x: Node, i: usize, n: usize, columns: &[u64], before: &[u64], own: &mut [u64])
    requires usable { Usable x i }
    requires known_op { (27 ≤ x.op) × (x.op < 30) × (n ≤ 64) }
    requires long_enough { (length columns.now ≡ 19) × (64 * i ≤ length before.now) × (64 ≤ length own.old) }
    ensures { (b : ℕ) → b < n → slice_index own.new b ≡ row_of (formula_op x.op) x n (first_column x.op x columns.now before.now) (second_column x.op x columns.now) before.now i b }
{
    let first = column::first(x, i, columns, before);
    let second = column::second(x, i, columns);
    put_each(own, n, |b| drawing_row(x, n, first, second, before, i, b));
}

// The rows of a bracket or a count below n. It stands beside put_drawing, and not in one with it, so that each loop tells few ops apart.
fn put_plain(x: Node, i: usize, n: usize, columns: &[u64], before: &[u64], own: &mut [u64])
    requires usable { Usable x i }
    requires known_op { (16 ≤ x.op) × (x.op < 27) × (is_pair x.op ≡ false) × (x.op ≡ 23 → ⊥) × (n ≤ 64) }
    requires long_enough { (length columns.now ≡ 19) × (64 * i ≤ length before.now) × (64 ≤ length own.old) }
    ensures { (b : ℕ) → b < n → slice_index own.new b ≡ row_of (formula_op x.op) x n (first_column x.op x columns.now before.now) (second_column x.op x columns.now) before.now i b }
{
    let first = column::first(x, i, columns, before);
    let second = column::second(x, i, columns);
    put_each(own, n, |b| plain_row(x, n, first, second, before, i, b));
}

// The rows of formula node i below n, from the words of the nodes before it. Most nodes are pairs, and drawings are what moves with a
// name: each family has a loop that tells few ops apart.
fn put_rows(x: Node, i: usize, n: usize, columns: &[u64], before: &[u64], own: &mut [u64])
    requires usable { Usable x i }
    requires known_op { (16 ≤ x.op) × (x.op < 30) × (n ≤ 64) }
    requires long_enough { (length columns.now ≡ 19) × (64 * i ≤ length before.now) × (64 ≤ length own.old) }
    ensures { Rows x i n columns.now before.now own.new }
{
    match x.op {
        CHOP => put_chop(x, n, before, own),
        AND | OR => put_and_or(x, i, n, before, own),
        STAR => put_star(x, n, before, own),
        SYMBOL | MARK | GAP => put_drawing(x, i, n, columns, before, own),
        _ => put_plain(x, i, n, columns, before, own),
    }
}

// The words of node i: a proposition's column, or a formula's rows. Rows past the last cycle are left as they are.
fn put_node(nodes: &[u8], count: usize, n: usize, columns: &[u64], i: usize, words: &mut [u64])
    requires given { Given nodes.now count n columns.now words.old }
    requires before { Before (node_at nodes.now) (trace_of n columns.now) (marks_of columns.now) n words.old i }
    requires known_node { i < count }
    ensures { Filled (node_at nodes.now) (trace_of n columns.now) (marks_of columns.now) n i words.old words.new }
{
    let x = node_at(nodes, i);
    let (before, rest) = words.split_at_mut(64 * i);
    let own = &mut rest[..64];
    if let Some(Sort::Proposition) = sort_of(x.op) {
        own[0] = column::proposition(x, i, n, columns, before);
    } else {
        put_rows(x, i, n, columns, before, own);
    }
}

// The words of every node, where `moved` has the names whose columns are others since the words were last right: bit u is name u,
// and 8 says that they never were.
fn fill(
    nodes: &[u8],
    count: usize,
    n: usize,
    reach: &[usize],
    moved: usize,
    columns: &[u64],
    words: &mut [u64],
)
    requires given { Given nodes.now count n columns.now words.old × (64 ≤ length reach.now) }
    requires kept { Kept (node_at nodes.now) count n reach.now moved columns.now words.old }
    ensures { Tables (node_at nodes.now) count n columns.now words.new }
{
    for i in 0..count {
        if (reach[i] | 8) & moved != 0 {
            put_node(nodes, count, n, columns, i, words);
        }
    }
}

// Puts name u on cycle t; its mask if it stood elsewhere, else 0.
fn move_name(columns: &mut [u64], u: usize, t: usize) -> usize
    requires { (u < 3) × (t < 64) × (length columns.old ≡ 19) }
    ensures value { result ≡ changed columns.old u t }
    ensures columns_after { columns.new ≡ with_name columns.old u t }
{
    let place = FIRST_NAME + u;
    let column = only(t);
    let old = columns[place];
    columns[place] = column;
    if old == column { 0 } else { name_mask(u) }
}

// Puts the three names on cycles; the masks of those that stood elsewhere.
fn move_names(columns: &mut [u64], cycles: [usize; 3]) -> usize
    requires { Inside 64 cycles × (length columns.old ≡ 19) }
    ensures value { result ≡ changed_names columns.old cycles }
    ensures columns_after { columns.new ≡ with_names columns.old cycles }
{
    let first = move_name(columns, 0, cycles[0]);
    let second = move_name(columns, 1, cycles[1]);
    let third = move_name(columns, 2, cycles[2]);
    first | (second | third)
}

// The words, right for the columns, made right for the three names on these cycles: nodes that reach a name that stood elsewhere
// are filled again.
pub fn lay(
    nodes: &[u8],
    count: usize,
    n: usize,
    reach: &[usize],
    cycles: [usize; 3],
    columns: &mut [u64],
    words: &mut [u64],
)
    requires ready { Ready nodes.now count n reach.now columns.old words.old }
    requires tables { Tables (node_at nodes.now) count n columns.old words.old }
    requires inside { Inside n cycles }
    ensures columns_after { columns.new ≡ with_names columns.old cycles }
    ensures tables_after { Tables (node_at nodes.now) count n columns.new words.new }
{
    let moved = move_names(columns, cycles);
    fill(nodes, count, n, reach, moved, columns, words);
}

// The same from words that hold anything: every node is filled, so no reach is asked.
pub fn lay_first(
    nodes: &[u8],
    count: usize,
    n: usize,
    cycles: [usize; 3],
    columns: &mut [u64],
    words: &mut [u64],
)
    requires given { Given nodes.now count n columns.old words.old }
    requires inside { Inside n cycles }
    ensures columns_after { columns.new ≡ with_names columns.old cycles }
    ensures tables { Tables (node_at nodes.now) count n columns.new words.new }
{
    let none = [0usize; MOST_NODES];
    let _ = move_names(columns, cycles);
    fill(nodes, count, n, &none, 8, columns, words);
}
