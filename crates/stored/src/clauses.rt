// The clauses of a kind 1 sheet: their fields, and rules 8 and 9.
ghost use Rattle.std.specs.Prelude.{◌≡◌, ◌+◌, ◌*◌, ◌≤◌, ◌<◌, length};
ghost use Rattle.stored.specs.Bytes.{every_below};
ghost use Rattle.stored.specs.Layout.{node_size, clause_size, most_nodes};
ghost use Rattle.stored.specs.Node.{node_at};
ghost use Rattle.stored.specs.Reach.{reach_table};
ghost use Rattle.stored.specs.Types.{type_stored, role_number};
ghost use Rattle.stored.specs.Clause.{type_of, stored_at, parts_used, part_right, clause_right, clause_right_at, part_covered, clause_covered, clause_covered_at};

use crate::bytes::listed;
use crate::{StoredClause, bytes, layout, masks, nodes};

// The types of clauses, with the numbers that document 01 gives them.
#[derive(Clone, Copy)]
pub enum ClauseType {
    Pref = 1,
    Init = 2,
    Anti = 3,
    Implies = 4,
    Follows = 5,
    Triggers = 6,
}

// Any number has a type, as a clause's meaning has it: one that document 01 gives to none stands for the first. A `TryFrom` would have an
// Err that nobody can take, since rule 8 keeps the numbers of a sheet from 1 to 6.
impl From<usize> for ClauseType {
    ghost from_gives = { λ number clause_type. type_stored clause_type ≡ type_of number };

    #[tactic(auto, unfolding(crate::specs::Clause::type_of))]
    fn from(number: usize) -> ClauseType {
        match number {
            2 => ClauseType::Init,
            3 => ClauseType::Anti,
            4 => ClauseType::Implies,
            5 => ClauseType::Follows,
            6 => ClauseType::Triggers,
            _ => ClauseType::Pref,
        }
    }
}

// The roles, with the numbers that document 01 gives them. A stored byte may be any number, so it is compared with a role's and made none.
#[derive(Clone, Copy)]
pub enum Role {
    Assumption = 0,
    Commitment = 1,
    Advice = 2,
}

impl From<Role> for usize {
    ghost from_gives = { λ role number. number ≡ role_number role };

    fn from(role: Role) -> usize {
        role as usize
    }
}

// How many parts each type uses; there is no type 0.
static PARTS: [u8; 7] = [0, 1, 2, 1, 2, 3, 3];

// Clause k of a clause part.
#[tactic(auto, unfolding(crate::specs::Clause::stored_at))]
pub fn stored_at(clauses: &[u8], k: usize) -> StoredClause
    requires { clause_size * k + clause_size ≤ length clauses.now }
    ensures { result ≡ stored_at clauses.now k }
{
    let at = layout::CLAUSE_SIZE * k;
    let clause_type = bytes::byte(clauses, at);
    let role = bytes::byte(clauses, at + 1);
    let root1 = bytes::word(clauses, at + 2);
    let root2 = bytes::word(clauses, at + 4);
    let root3 = bytes::word(clauses, at + 6);
    let mask1 = bytes::byte(clauses, at + 8);
    let mask2 = bytes::byte(clauses, at + 9);
    let mask3 = bytes::byte(clauses, at + 10);
    StoredClause {
        clause_type,
        role,
        root1,
        root2,
        root3,
        mask1,
        mask2,
        mask3,
    }
}

// How many parts a type uses.
#[tactic(auto, unfolding(crate::specs::Clause::parts_used))]
pub fn parts_used(clause_type: usize) -> usize
    ensures { result ≡ parts_used clause_type }
{
    listed(&PARTS, clause_type)
}

// A used root is a formula node; an unused root and mask are zero.
#[tactic(auto, unfolding(crate::specs::Clause::part_right))]
fn part_ok(nodes: &[u8], n: usize, used: bool, root: usize, mask: usize) -> bool
    requires { node_size * n ≤ length nodes.now }
    ensures { result ≡ part_right (node_at nodes.now) n used root mask }
{
    if used {
        nodes::is_formula_node(nodes, n, root)
    } else {
        root == 0 && mask == 0
    }
}

#[tactic(auto, unfolding(crate::specs::Clause::clause_right))]
fn clause_ok(nodes: &[u8], n: usize, d: StoredClause) -> bool
    requires { node_size * n ≤ length nodes.now }
    ensures { result ≡ clause_right (node_at nodes.now) n d }
{
    let used = parts_used(d.clause_type);
    (1..=6).contains(&d.clause_type)
        && d.role <= usize::from(Role::Advice)
        && part_ok(nodes, n, 0 < used, d.root1, d.mask1)
        && part_ok(nodes, n, 1 < used, d.root2, d.mask2)
        && part_ok(nodes, n, 2 < used, d.root3, d.mask3)
}

// Rule 8: every clause's fields are right.
pub fn clauses_ok(nodes: &[u8], n: usize, clauses: &[u8], c: usize) -> bool
    requires { (node_size * n ≤ length nodes.now) × (clause_size * c ≤ length clauses.now) }
    ensures { result ≡ every_below c (clause_right_at (node_at nodes.now) n (stored_at clauses.now)) }
{
    (0..c).all(|k| clause_ok(nodes, n, stored_at(clauses, k)))
}

// The mask has bits for names below m only and, if the part is used, for every name that its root reaches.
#[tactic(auto, using(crate::proofs::Rules::shift_one), unfolding(crate::specs::Clause::part_covered, crate::specs::Reach::joint))]
fn part_covered(table: &[usize], m: usize, used: bool, root: usize, mask: usize) -> bool
    requires { m < 64 }
    ensures { result ≡ part_covered table.now m used root mask }
{
    mask < 1 << m && (!used || masks::entry_of(table, root) | mask == mask)
}

#[tactic(auto, unfolding(crate::specs::Clause::clause_covered))]
fn clause_covered(table: &[usize], m: usize, d: StoredClause) -> bool
    requires { m < 64 }
    ensures { result ≡ clause_covered table.now m d }
{
    let used = parts_used(d.clause_type);
    part_covered(table, m, 0 < used, d.root1, d.mask1)
        && part_covered(table, m, 1 < used, d.root2, d.mask2)
        && part_covered(table, m, 2 < used, d.root3, d.mask3)
}

fn all_covered(table: &[usize], m: usize, clauses: &[u8], c: usize) -> bool
    requires { (m < 64) × (clause_size * c ≤ length clauses.now) }
    ensures { result ≡ every_below c (clause_covered_at table.now m (stored_at clauses.now)) }
{
    (0..c).all(|k| clause_covered(table, m, stored_at(clauses, k)))
}

// Rule 9: every mask has bits for names below m only, and covers what its part reaches.
#[tactic(auto, unfolding(crate::specs::Reach::reach_table))]
pub fn clauses_covered(nodes: &[u8], n: usize, m: usize, clauses: &[u8], c: usize) -> bool
    requires { (n ≤ most_nodes) × (node_size * n ≤ length nodes.now) × (m < 64) × (clause_size * c ≤ length clauses.now) }
    ensures { result ≡ every_below c (clause_covered_at (reach_table (node_at nodes.now) n) m (stored_at clauses.now)) }
{
    let table = masks::reach_table(nodes, n);
    all_covered(&table, m, clauses, c)
}
