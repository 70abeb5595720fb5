// The nodes of a kind 1 sheet: their fields, and rules 6 and 7.
ghost use Rattle.std.specs.Prelude.{◌≡◌, ◌+◌, ◌*◌, ◌≤◌, ◌<◌, length};
ghost use Rattle.stored.specs.Bytes.{every_below};
ghost use Rattle.stored.specs.Layout.{node_size};
ghost use Rattle.stored.specs.Node.{node_at, requirement_sorts, sort_of, q_use, a_use, b_use, is_operand, field_right, fields_right, node_right, sort_below, operand_right, operands_right, is_formula_node};

use crate::bytes::entry;
use crate::{Node, bytes, layout, ops};

// What a node is.
#[derive(Clone, Copy, PartialEq, Eq)]
pub enum Sort {
    Proposition,
    Formula,
}

// What an op uses a field of its nodes for: a value, a name or two, a number, or the number of an earlier node.
#[derive(Clone, Copy, PartialEq, Eq)]
pub enum Use {
    Nothing,
    Signal,
    Name,
    Comparison,
    Symbol,
    TwoNames,
    Number,
    PropositionNode,
    FormulaNode,
}

impl Use {
    // Whether a field used so is the number of a node.
    #[tactic(auto, unfolding(crate::specs::Node::is_operand))]
    pub fn is_operand(self) -> bool
        ensures { result ≡ is_operand self }
    {
        match self {
            Use::PropositionNode | Use::FormulaNode => true,
            _ => false,
        }
    }
}

// By op. They are tables for speed: with a match over the ops, translate took 1.3 to 1.8 times as long, and a check over names a tenth more.
static SORTS: [Option<Sort>; 32] = [
    None,
    Some(Sort::Proposition),
    Some(Sort::Proposition),
    Some(Sort::Proposition),
    Some(Sort::Proposition),
    Some(Sort::Proposition),
    Some(Sort::Proposition),
    Some(Sort::Proposition),
    None,
    None,
    None,
    None,
    None,
    None,
    None,
    None,
    Some(Sort::Formula),
    Some(Sort::Formula),
    Some(Sort::Formula),
    Some(Sort::Formula),
    Some(Sort::Formula),
    Some(Sort::Formula),
    Some(Sort::Formula),
    Some(Sort::Formula),
    Some(Sort::Formula),
    Some(Sort::Formula),
    Some(Sort::Formula),
    Some(Sort::Formula),
    Some(Sort::Formula),
    Some(Sort::Formula),
    None,
    None,
];

static Q_USES: [Use; 32] = [
    Use::Nothing,
    Use::Nothing,
    Use::Nothing,
    Use::Nothing,
    Use::Nothing,
    Use::Nothing,
    Use::Nothing,
    Use::Nothing,
    Use::Nothing,
    Use::Nothing,
    Use::Nothing,
    Use::Nothing,
    Use::Nothing,
    Use::Nothing,
    Use::Nothing,
    Use::Nothing,
    Use::Nothing,
    Use::Nothing,
    Use::Nothing,
    Use::Nothing,
    Use::Nothing,
    Use::Nothing,
    Use::Nothing,
    Use::Nothing,
    Use::Comparison,
    Use::Comparison,
    Use::Comparison,
    Use::Symbol,
    Use::Nothing,
    Use::TwoNames,
    Use::Nothing,
    Use::Nothing,
];

static A_USES: [Use; 32] = [
    Use::Nothing,
    Use::Nothing,
    Use::Nothing,
    Use::Signal,
    Use::Name,
    Use::PropositionNode,
    Use::PropositionNode,
    Use::PropositionNode,
    Use::Nothing,
    Use::Nothing,
    Use::Nothing,
    Use::Nothing,
    Use::Nothing,
    Use::Nothing,
    Use::Nothing,
    Use::Nothing,
    Use::PropositionNode,
    Use::PropositionNode,
    Use::PropositionNode,
    Use::PropositionNode,
    Use::FormulaNode,
    Use::FormulaNode,
    Use::FormulaNode,
    Use::FormulaNode,
    Use::Nothing,
    Use::PropositionNode,
    Use::PropositionNode,
    Use::Signal,
    Use::Name,
    Use::Number,
    Use::FormulaNode,
    Use::FormulaNode,
];

static B_USES: [Use; 32] = [
    Use::Nothing,
    Use::Nothing,
    Use::Nothing,
    Use::Nothing,
    Use::Nothing,
    Use::Nothing,
    Use::PropositionNode,
    Use::PropositionNode,
    Use::Nothing,
    Use::Nothing,
    Use::Nothing,
    Use::Nothing,
    Use::Nothing,
    Use::Nothing,
    Use::Nothing,
    Use::Nothing,
    Use::Nothing,
    Use::Nothing,
    Use::Nothing,
    Use::Nothing,
    Use::FormulaNode,
    Use::FormulaNode,
    Use::FormulaNode,
    Use::Nothing,
    Use::Number,
    Use::Number,
    Use::Number,
    Use::Nothing,
    Use::Nothing,
    Use::Number,
    Use::Nothing,
    Use::Name,
];

// The sort of an op of kind 1.
#[tactic(auto, unfolding(crate::specs::Node::sort_of))]
pub fn sort_of(op: usize) -> Option<Sort>
    ensures { result ≡ sort_of requirement_sorts op }
{
    entry(&SORTS, op, None)
}

// What an op uses field q for.
#[tactic(auto, unfolding(crate::specs::Node::q_use))]
pub fn q_use(op: usize) -> Use
    ensures { result ≡ q_use op }
{
    entry(&Q_USES, op, Use::Nothing)
}

// What an op uses field a for.
#[tactic(auto, unfolding(crate::specs::Node::a_use))]
pub fn a_use(op: usize) -> Use
    ensures { result ≡ a_use op }
{
    entry(&A_USES, op, Use::Nothing)
}

// What an op uses field b for.
#[tactic(auto, unfolding(crate::specs::Node::b_use))]
pub fn b_use(op: usize) -> Use
    ensures { result ≡ b_use op }
{
    entry(&B_USES, op, Use::Nothing)
}

// Node i of a node part.
#[tactic(auto, unfolding(crate::specs::Node::node_at))]
pub fn node_at(nodes: &[u8], i: usize) -> Node
    requires { node_size * i + node_size ≤ length nodes.now }
    ensures { result ≡ node_at nodes.now i }
{
    let at = layout::NODE_SIZE * i;
    let op = bytes::byte(nodes, at);
    let q = bytes::byte(nodes, at + 1);
    let a = bytes::word(nodes, at + 2);
    let b = bytes::word(nodes, at + 4);
    Node { op, q, a, b }
}

// A field's value v fits what it is used for, with s signals and m names.
#[tactic(auto, unfolding(crate::specs::Node::field_right))]
fn field_ok(s: usize, m: usize, what: Use, v: usize) -> bool
    ensures { result ≡ field_right s m what v }
{
    match what {
        Use::Nothing => v == 0,
        Use::Signal => v < s,
        Use::Name => v < m,
        Use::Comparison => v < 5,
        Use::Symbol => v < 8,
        Use::TwoNames => v / 16 < m && v % 16 < m,
        Use::Number | Use::PropositionNode | Use::FormulaNode => true,
    }
}

#[tactic(auto, unfolding(crate::specs::Node::fields_right))]
fn fields_ok(s: usize, m: usize, x: Node) -> bool
    ensures { result ≡ fields_right requirement_sorts s m x }
{
    sort_of(x.op).is_some()
        && field_ok(s, m, q_use(x.op), x.q)
        && field_ok(s, m, a_use(x.op), x.a)
        && field_ok(s, m, b_use(x.op), x.b)
        && (x.op != ops::GAP || x.a <= x.b)
}

// Rule 6: every node's fields are right.
pub fn nodes_ok(nodes: &[u8], n: usize, s: usize, m: usize) -> bool
    requires { node_size * n ≤ length nodes.now }
    ensures { result ≡ every_below n (node_right requirement_sorts s m (node_at nodes.now)) }
{
    (0..n).all(|i| fields_ok(s, m, node_at(nodes, i)))
}

// The sort of node v if it stands before node i.
#[tactic(auto, unfolding(crate::specs::Node::sort_below, crate::specs::Node::node_at))]
fn sort_below(nodes: &[u8], i: usize, v: usize) -> Option<Sort>
    requires { node_size * i ≤ length nodes.now }
    ensures { result ≡ sort_below requirement_sorts (node_at nodes.now) i v }
{
    if v < i {
        sort_of(bytes::byte(nodes, layout::NODE_SIZE * v))
    } else {
        None
    }
}

// Field v of node i, used so, is an earlier node of the sort needed if it has to be one.
#[tactic(auto, unfolding(crate::specs::Node::operand_right, crate::specs::Node::same_sort))]
fn operand_ok(nodes: &[u8], i: usize, what: Use, v: usize) -> bool
    requires { node_size * i ≤ length nodes.now }
    ensures { result ≡ operand_right requirement_sorts (node_at nodes.now) i what v }
{
    match what {
        Use::PropositionNode => matches!(sort_below(nodes, i, v), Some(Sort::Proposition)),
        Use::FormulaNode => matches!(sort_below(nodes, i, v), Some(Sort::Formula)),
        _ => true,
    }
}

#[tactic(auto, unfolding(crate::specs::Node::operands_right))]
fn operands_ok_at(nodes: &[u8], i: usize) -> bool
    requires { node_size * i + node_size ≤ length nodes.now }
    ensures { result ≡ operands_right requirement_sorts (node_at nodes.now) i }
{
    let x = node_at(nodes, i);
    operand_ok(nodes, i, a_use(x.op), x.a) && operand_ok(nodes, i, b_use(x.op), x.b)
}

// Rule 7: every operand is an earlier node of the sort needed.
pub fn operands_ok(nodes: &[u8], n: usize) -> bool
    requires { node_size * n ≤ length nodes.now }
    ensures { result ≡ every_below n (operands_right requirement_sorts (node_at nodes.now)) }
{
    (0..n).all(|i| operands_ok_at(nodes, i))
}

#[tactic(auto, unfolding(crate::specs::Node::is_formula_node, crate::specs::Node::same_sort))]
pub fn is_formula_node(nodes: &[u8], n: usize, i: usize) -> bool
    requires { node_size * n ≤ length nodes.now }
    ensures { result ≡ is_formula_node requirement_sorts (node_at nodes.now) n i }
{
    matches!(sort_below(nodes, n, i), Some(Sort::Formula))
}
