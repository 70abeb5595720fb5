// Writes the nodes and clauses of a typed sheet one after another, each into an area of its own, and puts the sheet together.
ghost use Rattle.std.specs.Prelude.{ℕ, List, ◌≡◌, ◌+◌, ◌*◌, ◌≤◌, ◌<◌, length};
ghost use Rattle.std.proofs.lemmas.List.Edits.{sets};
ghost use Rattle.std.proofs.Math.Seq.{paste};
ghost use Rattle.stored.specs.Layout.{node_size, clause_size, clauses_end, most_nodes, most_clauses};
ghost use Rattle.stored.specs.Reach.{joint, name_mask};
ghost use Rattle.stored.specs.Written.{NodeFits, node_bytes};
ghost use Rattle.typed.specs.Draft.{draft, added, put, ClauseFits, clause_bytes, put_clause, in_byte, Assembled};

use stored::{Node, StoredClause, layout, masks, writer};

// What stands in an area: entries of SIZE bytes, of which at most MOST are written.
trait Entry: Copy {
    const SIZE: usize;

    const MOST: usize;

    ghost SIZE: { ℕ };

    ghost MOST: { ℕ };

    ghost Fits: { Self → Type 0 };

    ghost bytes: { Self → List ℕ };

    // The bytes of the entry from `at` on.
    fn write(self, out: &mut [u8], at: usize)
        requires { (at + SIZE ≤ length out.old) × Fits self }
        ensures { out.new ≡ sets out.old at (bytes self) };
}

impl Entry for Node {
    const SIZE: usize = layout::NODE_SIZE;

    const MOST: usize = layout::MOST_NODES;

    ghost SIZE = { node_size };

    ghost MOST = { most_nodes };

    ghost Fits = { NodeFits };

    ghost bytes = { node_bytes };

    fn write(self, out: &mut [u8], at: usize) {
        writer::write_node(out, at, self);
    }
}

impl Entry for StoredClause {
    const SIZE: usize = layout::CLAUSE_SIZE;

    const MOST: usize = layout::MOST_CLAUSES;

    ghost SIZE = { clause_size };

    ghost MOST = { most_clauses };

    ghost Fits = { ClauseFits };

    ghost bytes = { clause_bytes };

    fn write(self, out: &mut [u8], at: usize) {
        let bytes = [
            self.clause_type as u8,
            self.role as u8,
            writer::high(self.root1),
            writer::low(self.root1),
            writer::high(self.root2),
            writer::low(self.root2),
            writer::high(self.root3),
            writer::low(self.root3),
            self.mask1 as u8,
            self.mask2 as u8,
            self.mask3 as u8,
        ];
        out[at..at + layout::CLAUSE_SIZE].copy_from_slice(&bytes);
    }
}

// One entry more: written after the others while there is room for it, and counted in any case.
fn add<E: Entry>(area: &mut [u8], count: usize, x: E) -> usize
    requires { (length area.old ≡ E.SIZE * E.MOST) × (count < 18446744073709551615) × (count < E.MOST → E.Fits x) }
    ensures { draft area.new result ≡ added E.SIZE E.MOST (E.bytes x) (draft area.old count) }
{
    if count < E::MOST {
        x.write(area, E::SIZE * count);
    }
    count + 1
}

// One node more, of at most 64.
pub fn put(nodes: &mut [u8], count: usize, x: Node) -> usize
    requires { (length nodes.old ≡ node_size * most_nodes) × (count < 18446744073709551615) × (count < most_nodes → NodeFits x) }
    ensures { draft nodes.new result ≡ put x (draft nodes.old count) }
{
    add(nodes, count, x)
}

// One clause more, of at most 8.
pub fn put_clause(clauses: &mut [u8], count: usize, x: StoredClause) -> usize
    requires { (length clauses.old ≡ clause_size * most_clauses) × (count < 18446744073709551615) × (count < most_clauses → ClauseFits x) }
    ensures { draft clauses.new result ≡ put_clause x (draft clauses.old count) }
{
    add(clauses, count, x)
}

// The names of a mask, with u.
pub fn with_name(names: usize, u: usize) -> usize
    ensures { result ≡ joint names (name_mask u) }
{
    names | masks::name_mask(u)
}

// A number of one byte.
pub fn in_byte(v: usize) -> usize
    ensures { (result ≡ in_byte v) × (result < 256) }
{
    v.min(255)
}

// The stored sheet of s signals, m names, n nodes and c clauses, at the front of `out`, and its length.
pub fn assemble(
    out: &mut [u8],
    s: usize,
    m: usize,
    nodes: &[u8],
    n: usize,
    clauses: &[u8],
    c: usize,
) -> usize
    requires { (clauses_end most_nodes most_clauses ≤ length out.old) × (length nodes.now ≡ node_size * most_nodes) × (n ≤ most_nodes) × (length clauses.now ≡ clause_size * most_clauses) × (c ≤ most_clauses) }
    ensures { Assembled s m (draft nodes.now n) (draft clauses.now c) out.old out.new result }
{
    writer::put_header(out, layout::REQUIREMENT, in_byte(s), in_byte(m), n, c);
    let middle = layout::nodes_end(n);
    let end = layout::clauses_end(n, c);
    out[layout::NODES_START..middle].copy_from_slice(&nodes[..layout::NODE_SIZE * n]);
    out[middle..end].copy_from_slice(&clauses[..layout::CLAUSE_SIZE * c]);
    end
}
