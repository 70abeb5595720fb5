// One node more of the sheet that is being written.
ghost use Rattle.std.specs.Prelude.{◌≡◌};
ghost use Rattle.plans.specs.Plan.{fits, node_of, Put};

use rows::count::Comparison;
use stored::{Node, bytes, layout, ops, writer};

// Document 01's bound on a formula's nodes at its largest.
pub const MOST_EMITTED: usize = 1025;

// What a formula that is written says of one node: its op, with the signal, the name, the comparison, the number or the operands' nodes
// that it takes.
#[derive(Clone, Copy)]
pub enum Op {
    Signal(usize),
    Name(usize),
    Negated(usize),
    Point(usize),
    Stretch(usize),
    Unit(usize),
    Chop(usize, usize),
    And(usize, usize),
    Or(usize, usize),
    // The length, compared with a number.
    Length(Comparison, usize),
    // How often a proposition holds, compared with a number.
    Count(Comparison, usize, usize),
    Not(usize),
    // Some column for a name.
    Column(usize, usize),
}

impl From<Op> for Node {
    ghost from_gives = { λ op x. x ≡ node_of op };

    fn from(op: Op) -> Node {
        let (op, q, a, b) = match op {
            Op::Signal(k) => (ops::SIGNAL, 0, k, 0),
            Op::Name(u) => (ops::NAME, 0, u, 0),
            Op::Negated(a) => (ops::NOT_P, 0, a, 0),
            Op::Point(a) => (ops::POINT, 0, a, 0),
            Op::Stretch(a) => (ops::STRETCH, 0, a, 0),
            Op::Unit(a) => (ops::UNIT, 0, a, 0),
            Op::Chop(a, b) => (ops::CHOP, 0, a, b),
            Op::And(a, b) => (ops::AND, 0, a, b),
            Op::Or(a, b) => (ops::OR, 0, a, b),
            Op::Length(c, n) => (ops::SLEN, usize::from(c), 0, n),
            Op::Count(c, a, n) => (ops::SCOUNT, usize::from(c), a, n),
            Op::Not(a) => (ops::NOT, 0, a, 0),
            Op::Column(u, a) => (ops::SOME, 0, a, u),
        };
        Node { op, q, a, b }
    }
}

// The node's fields fit their bytes, and there is room for one node more.
#[tactic(auto, unfolding(crate::specs::Plan::fits))]
fn fits(out: &[u8], x: Node) -> bool
    ensures { result ≡ fits out.now x }
{
    layout::LEAST_OUTPUT <= out.len()
        && (x.op < 256 && x.q < 256 && x.a < 65536 && x.b < 65536)
        && writer::count(out) < MOST_EMITTED
}

// The next node, whatever it is, and its number. Where it does not fit nothing is written and the number is 0, as `Put` has it and no
// Option: the writers can't fail, and a plan's law shows that its nodes fit.
pub fn put_node(out: &mut [u8], x: Node) -> usize
    ensures { Put x out.old out.new result }
{
    if !fits(out, x) {
        return 0;
    }
    let s = bytes::byte(out, 4);
    let m = bytes::byte(out, 5);
    let n = writer::count(out);
    let next = n + 1;
    writer::put_node(out, n, x);
    writer::put_header(out, layout::EMITTED, s, m, next, 0);
    n
}

// The next node, by its op.
pub fn put(out: &mut [u8], op: Op) -> usize
    ensures { Put (node_of op) out.old out.new result }
{
    put_node(out, Node::from(op))
}
