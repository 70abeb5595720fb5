// A part of a clause: a formula, a colon and names.
ghost use Rattle.propositions.specs.Reads.{Ready};
ghost use Rattle.text.specs.Parts.{NamesRead, LastNode, PartRead};

use formulas::formula::formula;
use propositions::leaf;
use propositions::leaf::Leaf;
use propositions::nodes::Nodes;
use propositions::words::COLON;
use stored::layout::MOST_NODES;
use stored::masks;
use typed::draft;

// The round brackets that a part may open: 32 less the clause's own.
const PART_DEPTH: usize = 31;

// The place after a part that was read, the last of its nodes, and its names as a mask.
#[derive(Clone, Copy)]
pub struct GotPart {
    pub at: usize,
    pub root: usize,
    pub mask: usize,
}

// The last of so many nodes; 0 where there are none, or more than the most.
fn last_node(count: usize) -> usize
    ensures { LastNode count result }
{
    match count {
        1..=MOST_NODES => count - 1,
        _ => 0,
    }
}

// All the names that come next, as a mask. None may stand twice.
fn names(text: &[u8], at: usize) -> Option<Leaf>
    ensures { NamesRead text.now at result }
{
    let mut mask = 0;
    let mut here = at;
    while let Some(name) = leaf::name(text, here) {
        if masks::has_name(mask, name.value) {
            return None;
        }
        mask = draft::with_name(mask, name.value);
        here = name.at;
    }
    Some(Leaf {
        value: mask,
        at: here,
    })
}

// A part.
pub fn part(text: &[u8], at: usize, nodes: &mut Nodes) -> Option<GotPart>
    requires { Ready text.now at nodes.old }
    ensures { PartRead 31 text.now at nodes.old nodes.new result }
{
    let said = formula(text, at, PART_DEPTH, nodes)?;
    let colon = leaf::sign(text, said, COLON)?;
    let listed = names(text, colon)?;
    Some(GotPart {
        at: listed.at,
        root: last_node(nodes.count),
        mask: listed.value,
    })
}
