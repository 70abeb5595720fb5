// The interval table of one node.
ghost use Rattle.std.specs.Prelude.{◌≡◌, ◌+◌, ◌*◌, ◌≤◌, ◌<◌, length, get_or, replicate, [], ◌∷◌};
ghost use Rattle.stored.specs.Bytes.{in_order};
ghost use Rattle.stored.specs.Node.{node_at, requirement_sorts, sort_of, formula};
ghost use Rattle.traces.specs.Columns.{trace_of};
ghost use Rattle.stored.specs.Tree.{earlier};
ghost use Rattle.stored.specs.Refusal.{answered};
ghost use Rattle.tables.specs.Table.{standing, Inside, row_at};
ghost use Rattle.tables.specs.Ready.{Given};
ghost use Rattle.checker.specs.Table.{name_placed, names_placed, heeded, placement_of, table_of, node_refusal, words_after, table_answer, table_refusal, table_words};

use stored::layout::LEAST_WORDS;
use stored::nodes::is_formula_node;
use stored::refusal::Refusal;
use stored::sheet::{node_part, read_sheet};
use tables::fill::lay_first;
use tables::words::{clear, row_at};
use traces::trace::{columns, read_trace};

// Name u is no name of the sheet, or stands on a cycle of the trace.
fn name_placed(m: usize, n: usize, u: usize, p: usize) -> bool
    ensures { result ≡ name_placed m n u p }
{
    let named = u < m;
    !named | (p < n)
}

fn names_placed(m: usize, n: usize, given: [usize; 3]) -> bool
    ensures { result ≡ names_placed m n (get_or given 0 0) (get_or given 1 0) (get_or given 2 0) }
{
    let first = name_placed(m, n, 0, given[0]);
    let second = name_placed(m, n, 1, given[1]);
    let third = name_placed(m, n, 2, given[2]);
    first & (second & third)
}

// The cycle given for name u, which is ignored from m up.
fn heed(m: usize, u: usize, p: usize) -> usize
    ensures { result ≡ heeded m u p }
{
    if u < m { p } else { 0 }
}

// The cycles that are heeded.
fn heed_all(m: usize, given: [usize; 3]) -> [usize; 3]
    ensures { result ≡ heeded m 0 (get_or given 0 0) ∷ heeded m 1 (get_or given 1 0) ∷ heeded m 2 (get_or given 2 0) ∷ [] }
{
    let first = heed(m, 0, given[0]);
    let second = heed(m, 1, given[1]);
    let third = heed(m, 2, given[2]);
    [first, second, third]
}

// The rows of node i, those past the last cycle zero.
fn copy_rows(words: &[u64], i: usize, n: usize) -> [u64; 64]
    requires { (64 * i + 64 ≤ length words.now) × (n ≤ 64) }
    ensures { result ≡ in_order 64 (earlier n 0 (row_at words.now i)) }
{
    let mut rows = [0u64; 64];
    for b in 0..n {
        rows[b] = row_at(words, i, b);
    }
    rows
}

// The rows of a formula node, and the words cleared.
fn rows_of(
    nodes: &[u8],
    count: usize,
    n: usize,
    node: usize,
    cycles: [usize; 3],
    columns: &mut [u64],
    words: &mut [u64],
) -> [u64; 64]
    requires given { Given nodes.now count n columns.old words.old × Inside n cycles }
    requires known_node { (node < count) × (sort_of requirement_sorts (node_at nodes.now node).op ≡ formula) }
    ensures value { result ≡ table_of (node_at nodes.now) (trace_of n columns.old) node (standing cycles) }
    ensures words_after { words.new ≡ replicate (length words.old) 0 }
{
    lay_first(nodes, count, n, cycles, columns, words);
    let rows = copy_rows(words, node, n);
    clear(words);
    rows
}

// The table of a node of accepted nodes, or refusal 16 or 17.
fn node_table(
    nodes: &[u8],
    count: usize,
    n: usize,
    m: usize,
    node: usize,
    given: [usize; 3],
    columns: &mut [u64],
    words: &mut [u64],
) -> Result<[u64; 64], Refusal>
    requires { Given nodes.now count n columns.old words.old }
    ensures value { result ≡ answered (node_refusal (node_at nodes.now) count n m node (get_or given 0 0) (get_or given 1 0) (get_or given 2 0)) (table_of (node_at nodes.now) (trace_of n columns.old) node (placement_of m (get_or given 0 0) (get_or given 1 0) (get_or given 2 0))) }
    ensures words_after { words.new ≡ words_after (node_refusal (node_at nodes.now) count n m node (get_or given 0 0) (get_or given 1 0) (get_or given 2 0)) words.old }
{
    if !is_formula_node(nodes, count, node) {
        return Err(Refusal::NotAFormula);
    }
    if !names_placed(m, n, given) {
        return Err(Refusal::NameOffTrace);
    }
    Ok(rows_of(nodes, count, n, node, heed_all(m, given), columns, words))
}

// The table of a formula node of a sheet over a trace, each name on the cycle given for it, names from m up ignored.
// The lent words are all zero afterwards, or as they were where it is refused.
pub fn table(
    sheet: &[u8],
    trace: &[u8],
    node: usize,
    p0: usize,
    p1: usize,
    p2: usize,
    words: &mut [u64],
) -> Result<[u64; 64], Refusal>
    ensures value { result ≡ table_answer sheet.now trace.now node p0 p1 p2 words.old }
    ensures words_after { words.new ≡ words_after (table_refusal sheet.now trace.now node p0 p1 p2 words.old) words.old }
{
    let h = read_sheet(sheet)?;
    let n = read_trace(trace, h.signals)?;
    if words.len() < LEAST_WORDS {
        return Err(Refusal::FewWords);
    }
    let nodes = node_part(sheet, h);
    let mut columns = columns(trace, h.signals, n);
    node_table(
        nodes,
        h.nodes,
        n,
        h.names,
        node,
        [p0, p1, p2],
        &mut columns,
        words,
    )
}

// The 64 words of a table's answer: those of a refused table are zero.
#[tactic(auto, unfolding(crate::specs::Table::table_words))]
pub fn table_words(answer: Result<[u64; 64], Refusal>) -> [u64; 64]
    ensures { result ≡ table_words answer }
{
    answer.unwrap_or([0; 64])
}
