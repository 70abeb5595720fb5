// The board for programs in Rust and C. It stands in lent cells: the sheet's bytes, the cycles, how many of them are taken, and the verdict
// last given as the number that the feed answered, 0 for none.
ghost use Rattle.std.specs.Prelude.{◌≡◌};
ghost use Rattle.stored.specs.Sheet.{sheet_refusal};
ghost use Rattle.checker.specs.Table.{words_after};
ghost use Rattle.board.specs.Board.{new_board, feed_refusal, feed_answer, next_board};
ghost use Rattle.exports.specs.Packed.{packed, unpacked, packed_table};
ghost use Rattle.exports.specs.Board.{board_in, cell_after};

use crate::{packed_refusal, packed_verdict};
use board::Board;
use stored::layout::{MOST_CYCLES, MOST_SHEET};

// Opens a board on a sheet: 4, and the lent cells are a board with no cycles and no verdict; or 256 times the refusal's number, 1 to 9, and
// the cells are as they were.
#[unsafe(no_mangle)]
pub extern "C" fn fasunqir_open(
    sheet: &[u8],
    bytes: &mut [u8; MOST_SHEET],
    cycles: &mut [u16; MOST_CYCLES],
    taken: &mut usize,
    verdict: &mut u64,
) -> u64
    ensures value { result ≡ packed_table (sheet_refusal sheet.now) }
    ensures bytes_after { bytes.new ≡ cell_after (sheet_refusal sheet.now) (new_board sheet.now).sheet bytes.old }
    ensures cycles_after { cycles.new ≡ cell_after (sheet_refusal sheet.now) (new_board sheet.now).cycles cycles.old }
    ensures taken_after { taken.new ≡ cell_after (sheet_refusal sheet.now) 0 taken.old }
    ensures verdict_after { verdict.new ≡ cell_after (sheet_refusal sheet.now) 0 verdict.old }
{
    match Board::open(sheet) {
        Ok(board) => {
            let new = board.sheet;
            let held = board.cycles;
            *bytes = new;
            *cycles = held;
            *taken = board.taken;
            *verdict = 0;
            4
        }
        Err(refusal) => packed_refusal(refusal),
    }
}

// Feeds a cycle: the check's answer on the cycles taken before and this one, packed as that of fasunqir_check, and the lent cells are the
// next board; or 256 times the refusal's number, and the cells are as they were. The lent words are all zero afterwards, or as they were
// where a refusal's number is the answer. The verdict that is lent is not looked at.
#[unsafe(no_mangle)]
pub extern "C" fn fasunqir_feed(
    bytes: &[u8; MOST_SHEET],
    cycles: &mut [u16; MOST_CYCLES],
    taken: &mut usize,
    verdict: &mut u64,
    cycle: u16,
    words: &mut [u64],
) -> u64
    ensures value { result ≡ packed (feed_answer (board_in bytes.now cycles.old taken.old verdict.old) cycle words.old) }
    ensures result_value { unpacked result ≡ feed_answer (board_in bytes.now cycles.old taken.old verdict.old) cycle words.old }
    ensures board_after { board_in bytes.now cycles.new taken.new verdict.new ≡ next_board (board_in bytes.now cycles.old taken.old verdict.old) cycle words.old }
    ensures verdict_after { verdict.new ≡ cell_after (feed_refusal (board_in bytes.now cycles.old taken.old verdict.old) cycle words.old) result verdict.old }
    ensures words_after { words.new ≡ words_after (feed_refusal (board_in bytes.now cycles.old taken.old verdict.old) cycle words.old) words.old }
{
    let board = Board {
        sheet: *bytes,
        cycles: *cycles,
        taken: *taken,
        verdict: None,
    };
    let fed = board.feed(cycle, words);
    match fed.answer {
        Ok(told) => {
            let number = packed_verdict(told);
            let next = fed.board;
            let held = next.cycles;
            *cycles = held;
            *taken = next.taken;
            *verdict = number;
            number
        }
        Err(refusal) => packed_refusal(refusal),
    }
}
