// The nodes of what was read, in the order in which they were put.
ghost use Rattle.std.specs.Prelude.{◌-◌};
ghost use Rattle.typed.specs.Draft.{node};
ghost use Rattle.propositions.specs.Nodes.{Puttable, NodePut, Joinable};

use stored::{Node, layout};
use typed::draft;

// The bytes of the most nodes.
pub const NODE_BYTES: usize = layout::NODE_SIZE * layout::MOST_NODES;

// The bytes of the nodes, and how many there are, also where they are too many for the bytes.
#[derive(Drop)]
pub struct Nodes {
    pub bytes: [u8; NODE_BYTES],
    pub count: usize,
}

impl Nodes {
    // One node more.
    pub fn put(&mut self, x: Node)
        requires { Puttable x self.old }
        ensures { NodePut x self.old self.new }
    {
        self.count = draft::put(&mut self.bytes, self.count, x);
    }

    // One node more over the last one.
    pub fn over(&mut self, op: usize, q: usize, b: usize)
        requires { Puttable (node op q (self.old.count - 1) b) self.old }
        ensures { NodePut (node op q (self.old.count - 1) b) self.old self.new }
    {
        let a = self.count.saturating_sub(1);
        self.put(Node { op, q, a, b });
    }

    // One node more over two operands: of the first `left` nodes the last, and the last of all.
    pub fn join(&mut self, op: usize, left: usize)
        requires { Joinable op (left - 1) self.old }
        ensures { NodePut (node op 0 (left - 1) (self.old.count - 1)) self.old self.new }
    {
        let a = left.saturating_sub(1);
        let b = self.count.saturating_sub(1);
        self.put(Node { op, q: 0, a, b });
    }
}
