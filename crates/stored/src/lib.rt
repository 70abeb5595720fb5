// Stored sheets: which bytes are one, by which number the others are refused, and what an accepted sheet says.
#![tactic(auto)]

pub mod bytes;
pub mod clauses;
pub mod layout;
pub mod masks;
pub mod nodes;
pub mod ops;
pub mod refusal;
pub mod sheet;
pub mod writer;

// A node's four fields.
#[derive(Clone, Copy)]
pub struct Node {
    pub op: usize,
    pub q: usize,
    pub a: usize,
    pub b: usize,
}

// A clause's eight fields.
#[derive(Clone, Copy)]
pub struct StoredClause {
    pub clause_type: usize,
    pub role: usize,
    pub root1: usize,
    pub root2: usize,
    pub root3: usize,
    pub mask1: usize,
    pub mask2: usize,
    pub mask3: usize,
}

// The counts of a sheet.
#[derive(Clone, Copy)]
pub struct Header {
    pub signals: usize,
    pub names: usize,
    pub nodes: usize,
    pub clauses: usize,
}
