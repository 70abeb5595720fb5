// The names that nodes reach, as masks.
ghost use Rattle.std.specs.Prelude.{◌≡◌, ◌*◌, ◌≤◌, ◌<◌, length};
ghost use Rattle.semantics.specs.Proposition.{bit};
ghost use Rattle.stored.specs.Layout.{node_size, most_nodes};
ghost use Rattle.stored.specs.Node.{node_at};
ghost use Rattle.stored.specs.Reach.{name_mask, field_reach, node_reach, entry_of, reach_table};

use crate::bytes::listed;
use crate::nodes::Use;
use crate::{Node, layout, nodes};
use rows::mask::has;

// Name u as a mask.
static NAMES: [u8; layout::MOST_NAMES] = [1, 2, 4];

#[tactic(auto, unfolding(crate::specs::Reach::name_mask))]
pub fn name_mask(u: usize) -> usize
    ensures { result ≡ name_mask u }
{
    listed(&NAMES, u)
}

// Whether a mask has name u.
pub fn has_name(mask: usize, u: usize) -> bool
    requires { u < 64 }
    ensures { result ≡ bit mask u }
{
    has(mask as u64, u)
}

// Entry i of a table, 0 past its end.
#[tactic(auto, unfolding(crate::specs::Reach::entry_of))]
pub fn entry_of(table: &[usize], i: usize) -> usize
    ensures { result ≡ entry_of table.now i }
{
    table.get(i).copied().unwrap_or(0)
}

// The names that a field used so reaches, by the table of earlier nodes.
#[tactic(auto, unfolding(crate::specs::Reach::field_reach, crate::specs::Reach::joint))]
fn field_reach(table: &[usize], what: Use, v: usize) -> usize
    ensures { result ≡ field_reach (entry_of table.now) what v }
{
    match what {
        Use::Name => name_mask(v),
        Use::TwoNames => name_mask(v / 16) | name_mask(v % 16),
        Use::PropositionNode | Use::FormulaNode => entry_of(table, v),
        _ => 0,
    }
}

#[tactic(auto, unfolding(crate::specs::Reach::node_reach, crate::specs::Reach::joint))]
fn node_reach(table: &[usize], x: Node) -> usize
    ensures { result ≡ node_reach (entry_of table.now) x }
{
    let op = x.op;
    let q = field_reach(table, nodes::q_use(op), x.q);
    let a = field_reach(table, nodes::a_use(op), x.a);
    let b = field_reach(table, nodes::b_use(op), x.b);
    q | (a | b)
}

// The reach masks of the first n nodes.
pub fn reach_table(nodes: &[u8], n: usize) -> [usize; layout::MOST_NODES]
    requires { (n ≤ most_nodes) × (node_size * n ≤ length nodes.now) }
    ensures { result ≡ reach_table (node_at nodes.now) n }
{
    let mut table = [0usize; layout::MOST_NODES];
    for i in 0..n {
        table[i] = node_reach(&table, nodes::node_at(nodes, i));
    }
    table
}
