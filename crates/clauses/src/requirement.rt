// The formula of a requirement: some assumption is broken, or no commitment is. Advice is not part of it.
ghost use Rattle.std.specs.Prelude.{◌≡◌, ◌+◌, ◌≤◌, length};
ghost use Rattle.semantics.specs.Translation.{translation};
ghost use Rattle.stored.specs.Reach.{entry_of};
ghost use Rattle.stored.specs.Sheet.{header_of};
ghost use Rattle.plans.specs.Emission.{count, Emits, Ready};
ghost use Rattle.plans.specs.Plan.{Wrote};
ghost use Rattle.emission.specs.Copying.{NodesIn};
ghost use Rattle.clauses.specs.Clauses.{ClausesIn, side_count, broken_in, JoinedBy, clauses_at, requirement_cost};

use crate::clause::{Part, put_typed};
use emission::{copy, shared};
use plans::node::{Op, put};
use stored::clauses::Role;
use stored::{StoredClause, clauses, masks};

// The roles that the formula speaks of: assumption and commitment.
const SIDES: usize = Role::Commitment as usize + 1;

// A part of a clause over the copies.
fn copied_part(map: &[usize], root: usize, names: usize) -> Part
    ensures { result ≡ record { node = entry_of map.now root; names = names } }
{
    Part {
        node: masks::entry_of(map, root),
        names,
    }
}

#[tactic(auto, unfolding(crate::specs::Clauses::broken_in))]
fn put_clause(out: &mut [u8], map: &[usize], d: StoredClause) -> usize
    ensures { Wrote out.old out.new result (broken_in map.now d) }
{
    let d1 = copied_part(map, d.root1, d.mask1);
    let d2 = copied_part(map, d.root2, d.mask2);
    let d3 = copied_part(map, d.root3, d.mask3);
    put_typed(out, d.clause_type, d1, d2, d3)
}

// The clause joined to the earlier ones on the side of its role; advice has no side and is passed over. Sides go by document 01's numbers
// of roles, as in `JoinedBy`.
fn join_clause(out: &mut [u8], map: &[usize], d: StoredClause, sides: &mut [usize])
    requires { length sides.old ≡ side_count }
    ensures { JoinedBy map.now d out.old out.new sides.old sides.new }
{
    let role = d.role;
    if SIDES <= role {
        return;
    }
    let broken = put_clause(out, map, d);
    sides[role] = put(out, Op::Or(sides[role], broken));
}

// The node and clause parts of a sheet with n nodes and c clauses; the root is the last node. The counts go beside the parts, which may
// be longer (`NodesIn`, `ClausesIn`).
pub fn put_requirement(out: &mut [u8], nodes: &[u8], n: usize, clauses: &[u8], c: usize) -> usize
    requires { (Ready out.old) × (count out.old ≤ 9) × (NodesIn out.old nodes.now n) × (ClausesIn out.old nodes.now n clauses.now c) }
    ensures { (Emits out.old out.new result (requirement_cost nodes.now n c (header_of out.old).names) (translation (clauses_at nodes.now clauses.now c))) × (count out.new ≡ result + 1) }
{
    let map = copy::copy_nodes(out, nodes, n);
    let mut sides = [shared::NOTHING; SIDES];
    for k in 0..c {
        join_clause(out, &map, clauses::stored_at(clauses, k), &mut sides);
    }
    let assumed = sides[Role::Assumption as usize];
    let committed = sides[Role::Commitment as usize];
    let kept = put(out, Op::Not(committed));
    put(out, Op::Or(assumed, kept))
}
