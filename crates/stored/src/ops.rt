// The ops of nodes, as document 01 numbers them.
// Numbers and no enum: a node's byte may be any, and rule 6 tells which are ops (definition `node_at`, `sort_of`).
// Propositions. Where formulas have the same word, theirs is the bare one.
pub const FALSE: usize = 1;

pub const TRUE: usize = 2;

pub const SIGNAL: usize = 3;

pub const NAME: usize = 4;

pub const NOT_P: usize = 5;

pub const AND_P: usize = 6;

pub const OR_P: usize = 7;

// Formulas over a proposition: ⟨a⟩, [a], [[a]] and {{a}}.
pub const POINT: usize = 16;

pub const STRETCH: usize = 17;

pub const WHOLE: usize = 18;

pub const UNIT: usize = 19;

// Formulas over formulas.
pub const CHOP: usize = 20;

pub const AND: usize = 21;

pub const OR: usize = 22;

pub const STAR: usize = 23;

// What is compared with a number.
pub const SLEN: usize = 24;

pub const SCOUNT: usize = 25;

pub const SDUR: usize = 26;

// Drawings.
pub const SYMBOL: usize = 27;

pub const MARK: usize = 28;

pub const GAP: usize = 29;

// In a sheet of kind 2 alone.
pub const NOT: usize = 30;

pub const SOME: usize = 31;
