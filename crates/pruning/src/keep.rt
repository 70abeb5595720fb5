// Writes the marked nodes of a draft, in their order.
ghost use Rattle.stored.specs.Written.{node_in};
ghost use Rattle.pruning.specs.Pruned.{MarkedFrom, PrunedTo, Drafted};

use crate::mark;
use emission::copy;
use plans::node;

// The marked nodes up to the root, which is the last. The map gives the numbers of the nodes that they became, as `put_copy` takes it.
// Draft and root go side by side: a struct of them would be made in put_pruned and taken apart in two functions.
fn keep_marked(out: &mut [u8], marks: &[bool], draft: &[u8], root: usize) -> usize
    requires drafted { Drafted draft.now root out.old }
    requires marked { MarkedFrom (node_in draft.now) root 0 marks.now }
    ensures { PrunedTo draft.now root out.old out.new result }
{
    let mut map = [0usize; node::MOST_EMITTED];
    for (i, live) in marks[..=root].iter().enumerate() {
        if *live {
            map[i] = copy::put_copy(out, &map, mark::node_in(draft, i));
        }
    }
    map[root]
}

// The nodes of the draft that its root reaches; gives the number of the last.
pub fn put_pruned(out: &mut [u8], draft: &[u8], root: usize) -> usize
    requires { Drafted draft.now root out.old }
    ensures { PrunedTo draft.now root out.old out.new result }
{
    let mut marks = [false; node::MOST_EMITTED];
    mark::mark_reached(&mut marks, draft, root);
    keep_marked(out, &marks, draft, root)
}
