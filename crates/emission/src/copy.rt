// The sheet's nodes, copied in order.
ghost use Rattle.std.specs.Prelude.{true, ◌≡◌, ◌+◌, ◌*◌, ◌≤◌, length};
ghost use Rattle.stored.specs.Layout.{node_size};
ghost use Rattle.stored.specs.Node.{is_operand, node_at};
ghost use Rattle.stored.specs.Written.{NodeFits};
ghost use Rattle.plans.specs.Bound.{most_emitted, is_drawing};
ghost use Rattle.plans.specs.Emission.{count, Step, Ready};
ghost use Rattle.plans.specs.Plan.{Put, Wrote};
ghost use Rattle.emission.specs.Copying.{Mapped, mapped_to, copied_node, drawing_of, Copied, copy_costs, NodesIn};

use crate::drawing;
use plans::node::put_node;
use stored::nodes::Use;
use stored::{Node, layout, masks, nodes, ops};

// Field v of a node, used so: an operand is the node that stands for it.
#[tactic(auto, unfolding(crate::specs::Copying::mapped_to))]
fn mapped(map: &[usize], what: Use, v: usize) -> usize
    ensures { result ≡ mapped_to map.now what v }
{
    if what.is_operand() {
        masks::entry_of(map, v)
    } else {
        v
    }
}

// Node x, where the map gives the nodes that stand for its operands.
#[tactic(auto, unfolding(crate::specs::Copying::copied_node))]
pub fn put_copy(out: &mut [u8], map: &[usize], x: Node) -> usize
    ensures { Put (copied_node map.now x) out.old out.new result }
{
    let a = mapped(map, nodes::a_use(x.op), x.a);
    let b = mapped(map, nodes::b_use(x.op), x.b);
    put_node(out, Node { a, b, ..x })
}

// Node x: a drawing told by other formulas, another node as it is.
fn copy_node(out: &mut [u8], map: &[usize], x: Node) -> usize
    requires { NodeFits x }
    ensures { Copied map.now x out.old out.new result }
{
    match x.op {
        ops::SYMBOL => drawing::put_symbol(out, x.q, x.a),
        ops::MARK => drawing::put_mark(out, x.a),
        ops::GAP => drawing::put_gap(out, x.q / 16, x.q % 16, x.a, x.b),
        _ => put_copy(out, map, x),
    }
}

// The map from the sheet's n nodes to the numbers of the nodes that stand for them. The count goes beside the part: what is promised is
// of every part that holds n nodes (`NodesIn`), not of one that ends with them. The map is a list of numbers, 0 past its end (`Mapped`), in
// fixed memory.
pub fn copy_nodes(out: &mut [u8], nodes: &[u8], n: usize) -> [usize; layout::MOST_NODES]
    requires { (Ready out.old) × (count out.old + 768 ≤ most_emitted) × (NodesIn out.old nodes.now n) }
    ensures { (Step out.old out.new (copy_costs (node_at nodes.now) n)) × (Mapped (node_at nodes.now) n out.new result) }
{
    let mut map = [0usize; layout::MOST_NODES];
    for i in 0..n {
        map[i] = copy_node(out, &map, nodes::node_at(nodes, i));
    }
    map
}
