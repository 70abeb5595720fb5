// What the board program writes: a line a minute.
ghost use Rattle.std.specs.Prelude.{◌≡◌};
ghost use Rattle.printed.specs.Line.{line_text};
ghost use Rattle.lines.specs.Output.{Holds};
ghost use Rattle.printed.specs.Wall.{Opens, minute_answer, minute_board};

use crate::line::{MOST_LINE, answer_line, refused_line};
use board::Board;
use lines::input::{lent_words, word_at};
use lines::output::Output;

// The bytes of the longest input that is a sheet by its length field.
pub const HELD_SHEET: usize = 65537;

// The board after a minute, and the line that is written for it.
#[derive(Drop)]
pub struct Minute {
    pub board: Board,
    pub line: Output<MOST_LINE>,
}

// What the board program does with its sheet: its board, or the line of its refusal.
pub fn open_line(sheet: &[u8]) -> Result<Board, Output<MOST_LINE>>
    ensures { Opens sheet.now result }
{
    match Board::open(sheet) {
        Ok(board) => Ok(board),
        Err(refusal) => Err(refused_line(refusal.number())),
    }
}

// What the board program does with a minute, two bytes.
pub fn minute_line(board: Board, minute: &[u8]) -> Minute
    ensures board_value { result.board ≡ minute_board board minute.now }
    ensures line_value { Holds result.line (line_text (minute_answer board minute.now)) }
{
    let cycle = word_at(minute, 0) as u16;
    let mut words = lent_words();
    let fed = board.feed(cycle, &mut words);
    let next = fed.board;
    let line = answer_line(fed.answer);
    Minute { board: next, line }
}
