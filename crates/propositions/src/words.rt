// The words and signs of a text, by the numbers that their tokens have: `grammar/specs/Token.antt`, in whose terms the reader promises, has
// them by number.
pub const LINE_END: usize = 0;

// The roles 0 and 1.
pub const ASSUME_WORD: usize = 1;

pub const REQUIRE_WORD: usize = 2;

// The types from 1 to 6 go from the first of these to the last.
pub const PREF_WORD: usize = 3;

pub const TRIGGERS_WORD: usize = 8;

// Pieces.
pub const TRUE_WORD: usize = 9;

pub const FALSE_WORD: usize = 10;

pub const SLEN_WORD: usize = 11;

pub const SCOUNT_WORD: usize = 12;

pub const SDUR_WORD: usize = 13;

pub const DRAW_WORD: usize = 14;

pub const AT_WORD: usize = 15;

pub const GAP_WORD: usize = 16;

// The comparisons go from the first of these to the last.
pub const BELOW_SIGN: usize = 17;

pub const ABOVE_SIGN: usize = 21;

// Brackets.
pub const OPEN_ROUND: usize = 22;

pub const CLOSE_ROUND: usize = 23;

pub const OPEN_SQUARE: usize = 24;

pub const CLOSE_SQUARE: usize = 25;

pub const OPEN_SQUARES: usize = 26;

pub const CLOSE_SQUARES: usize = 27;

pub const OPEN_BRACES: usize = 28;

pub const CLOSE_BRACES: usize = 29;

// Joiners, !, the star, the colon and the comma.
pub const OR_SIGN: usize = 30;

pub const AND_SIGN: usize = 31;

pub const CHOP_SIGN: usize = 32;

pub const NOT_SIGN: usize = 33;

pub const STAR_SIGN: usize = 34;

pub const COLON: usize = 35;

pub const COMMA: usize = 36;
