// The board: a sheet, the cycles of an open offer so far, and the verdict on them. One call feeds a cycle and hands the board back.
#![tactic(auto)]

use checker::check::Verdict;
use stored::layout::{MOST_CYCLES, MOST_SHEET};
use stored::refusal::Refusal;

pub mod feed;
pub mod offer;
pub mod open;

// The sheet stands at the front of its bytes and ends where its length field says; the first `taken` cycles are those of the offer.
// The verdict is the one last given; a new board has none.
// A board is plain data that any caller can make: a feed takes one that passes as it stands, and refuses any other.
#[derive(Clone, Copy)]
pub struct Board {
    pub sheet: [u8; MOST_SHEET],
    pub cycles: [u16; MOST_CYCLES],
    pub taken: usize,
    pub verdict: Option<Verdict>,
}

// The board after a feed, and its verdict or why it was refused.
#[derive(Drop)]
pub struct Fed {
    pub board: Board,
    pub answer: Result<Verdict, Refusal>,
}
