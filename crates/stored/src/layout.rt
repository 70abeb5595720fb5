// Where the parts of a stored sheet stand, and every limit, as document 01 has them. They are said here alone.
ghost use Rattle.std.specs.Prelude.{◌≡◌, ◌<◌};
ghost use Rattle.stored.specs.Layout.{nodes_end, clauses_end};

// The node area starts after a header of nine bytes.
pub const NODES_START: usize = 9;

pub const NODE_SIZE: usize = 6;

pub const CLAUSE_SIZE: usize = 11;

// Byte 3: a requirement, or an emitted formula.
pub const REQUIREMENT: usize = 1;

pub const EMITTED: usize = 2;

// Where the area of n nodes ends: there the clauses start, and a sheet of kind 2 ends.
pub fn nodes_end(n: usize) -> usize
    requires { n < 65536 }
    ensures { result ≡ nodes_end n }
{
    NODES_START + NODE_SIZE * n
}

// Where a sheet of n nodes and c clauses ends.
pub fn clauses_end(n: usize, c: usize) -> usize
    requires { (n < 65536) × (c < 256) }
    ensures { result ≡ clauses_end n c }
{
    nodes_end(n) + CLAUSE_SIZE * c
}

// A trace's cycles start after a header of four bytes.
pub const CYCLES_START: usize = 4;

pub const CYCLE_SIZE: usize = 2;

// The most signals, names, nodes and clauses of a sheet of kind 1, and the most cycles of a trace.
pub const MOST_SIGNALS: usize = 16;

pub const MOST_NAMES: usize = 3;

pub const MOST_NODES: usize = 64;

pub const MOST_CLAUSES: usize = 8;

pub const MOST_CYCLES: usize = 64;

// The bytes of the longest sheet of kind 1, and of the longest trace.
pub const MOST_SHEET: usize = NODES_START + NODE_SIZE * MOST_NODES + CLAUSE_SIZE * MOST_CLAUSES;

pub const MOST_TRACE: usize = CYCLES_START + CYCLE_SIZE * MOST_CYCLES;

// The bytes that an operation which writes a sheet is lent at least, and the words that check and table borrow.
pub const LEAST_OUTPUT: usize = 8192;

pub const LEAST_WORDS: usize = 4096;
