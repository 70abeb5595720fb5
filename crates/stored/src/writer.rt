// Writes one node, and the header of a sheet, into lent bytes.
ghost use Rattle.std.specs.Prelude.{◌≡◌, ◌+◌, ◌/◌, ◌%◌, ◌≤◌, ◌<◌, length};
ghost use Rattle.std.proofs.lemmas.List.Edits.{sets};
ghost use Rattle.stored.specs.Layout.{nodes_start, node_size, nodes_end, clauses_end, following};
ghost use Rattle.stored.specs.Sheet.{header_of};
ghost use Rattle.stored.specs.Written.{NodeFits, node_bytes, put_node, put_header};

use crate::{Node, bytes, layout};

// The two bytes of a field, the high one first, each for its own place: to_be_bytes would want a u16 and a slice to copy into.
pub fn high(v: usize) -> u8
    requires { v < 65536 }
    ensures { result ≡ v / 256 }
{
    (v / 256) as u8
}

pub fn low(v: usize) -> u8
    ensures { result ≡ v % 256 }
{
    (v % 256) as u8
}

// The bytes of a node from `at` on.
pub fn write_node(out: &mut [u8], at: usize, x: Node)
    requires { (at + node_size ≤ length out.old) × NodeFits x }
    ensures { out.new ≡ sets out.old at (node_bytes x) }
{
    let a = x.a;
    let b = x.b;
    out[at] = x.op as u8;
    out[at + 1] = x.q as u8;
    out[at + 2] = high(a);
    out[at + 3] = low(a);
    out[at + 4] = high(b);
    out[at + 5] = low(b);
}

// Node i of a sheet.
#[tactic(auto, unfolding(crate::specs::Written::put_node))]
pub fn put_node(out: &mut [u8], i: usize, x: Node)
    requires { (i < 65536) × (nodes_end (i + 1) ≤ length out.old) × NodeFits x }
    ensures { out.new ≡ put_node out.old i x }
{
    write_node(out, layout::nodes_end(i), x);
}

// The header of a sheet of a kind with s signals, m names, n nodes and c clauses.
pub fn put_header(out: &mut [u8], kind: usize, s: usize, m: usize, n: usize, c: usize)
    requires { (nodes_start ≤ length out.old) × (kind < 256) × (s < 256) × (m < 256) × (c < 256) × (following (clauses_end n c) < 65536) }
    ensures { out.new ≡ put_header out.old kind s m n c }
{
    let rest = layout::clauses_end(n, c) - 2;
    out[0] = high(rest);
    out[1] = low(rest);
    out[2] = 1;
    out[3] = kind as u8;
    out[4] = s as u8;
    out[5] = m as u8;
    out[6] = high(n);
    out[7] = low(n);
    out[8] = c as u8;
}

// How many nodes the header counts.
#[tactic(auto, unfolding(crate::specs::Sheet::header_of))]
pub fn count(out: &[u8]) -> usize
    requires { nodes_start ≤ length out.now }
    ensures { (result ≡ (header_of out.now).nodes) × (result < 65536) }
{
    bytes::word(out, 6)
}
