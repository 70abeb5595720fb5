// A board is opened on a sheet.
ghost use Rattle.std.specs.Prelude.{◌≡◌, ◌≤◌, length, replicate};
ghost use Rattle.stored.specs.Layout.{most_sheet, most_cycles};
ghost use Rattle.board.specs.Board.{new_board, open_answer};

use crate::Board;
use lines::lines::put_word;
use lines::output::zeros;
use stored::layout::{MOST_CYCLES, MOST_SHEET};
use stored::refusal::Refusal;
use stored::sheet::read_sheet;

fn no_cycles() -> [u16; MOST_CYCLES]
    ensures { result ≡ replicate most_cycles 0 }
{
    [0; MOST_CYCLES]
}

// A board on these bytes.
fn new_board(sheet: &[u8]) -> Board
    requires { length sheet.now ≤ most_sheet }
    ensures { result ≡ new_board sheet.now }
{
    let mut bytes = zeros();
    put_word(&mut bytes, 0, sheet);
    let cycles = no_cycles();
    Board {
        sheet: bytes,
        cycles,
        taken: 0,
        verdict: None,
    }
}

impl Board {
    // A board with no cycles and no verdict; or the refusal with the lowest number from 1 to 9 that applies to the sheet.
    pub fn open(sheet: &[u8]) -> Result<Board, Refusal>
        ensures { result ≡ open_answer sheet.now }
    {
        read_sheet(sheet)?;
        Ok(new_board(sheet))
    }
}
