// An offer on the wall, from its sheet on.
ghost use Rattle.std.specs.Prelude.{◌≡◌, IfOk};
ghost use Rattle.stored.specs.Refusal.{answered};
ghost use Rattle.stored.specs.Sheet.{sheet_refusal};
ghost use Rattle.board.specs.Board.{new_board};
ghost use Rattle.board.specs.Feeds.{board_after, lent, taken_from, taken_watching, words_left, Told, Watched};

use crate::Board;
use stored::refusal::Refusal;

// Opens a board on a sheet and feeds it cycles, one after the other. That it shows the check's answer on the cycles taken, and nothing where
// none was, is the third promise. A refused sheet has no board, and nothing is done with the words.
pub fn watch(sheet: &[u8], cycles: &[u16], words: &mut [u64]) -> Result<Board, Refusal>
    ensures value { result ≡ answered (sheet_refusal sheet.now) (board_after (new_board sheet.now) (lent words.old cycles.now)) }
    ensures told { IfOk result (Told (new_board sheet.now) (lent words.old cycles.now)) }
    ensures watched { IfOk result (Watched sheet.now (taken_from (new_board sheet.now) (lent words.old cycles.now))) }
    ensures words_after { words.new ≡ words_left (taken_watching sheet.now (lent words.old cycles.now)) words.old }
{
    let new = Board::open(sheet)?;
    Ok(new.feed_all(cycles, words))
}
