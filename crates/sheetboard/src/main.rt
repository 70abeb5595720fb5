// Shows an open offer: a line for each minute, with the verdict on the minutes so far or the number of the refusal. Standard input is a sheet,
// which ends where its length field says, and then two bytes a minute. A refused sheet gets its line, and the program ends.
#![tactic(auto)]

ghost use Rattle.std.specs.Prelude.{◌≤◌, length, take, IfOk, OnOk};
ghost use Rattle.std.specs.Io.KnownBytes.{Appends};
ghost use Rattle.printed.specs.Wall.{most_held};

use board::Board;
use lines::input::word_at;
use lines::output::Output;
use printed::line::MOST_LINE;
use printed::wall::{HELD_SHEET, minute_line, open_line};
use std::io;
use std::io::{Read, Write};
use streams::read_full;

// Reads a sheet: the two bytes of its length field, and as many more as they say. Gives how many bytes came.
fn read_sheet<R: Read>(reader: &mut R, input: &mut [u8]) -> io::Result<usize>
    requires { most_held ≤ length input.old }
    ensures { IfOk result (λ n. n ≤ length input.new) }
{
    let head = read_full(reader, &mut input[..2])?;
    let end = word_at(input, 0) + 2;
    let rest = read_full(reader, &mut input[2..end])?;
    Ok(head + rest)
}

fn write_line<W: Write>(writer: &mut W, line: Output<MOST_LINE>) -> io::Result<()>
    ensures { OnOk result (Appends (W.contents writer.old) (W.contents writer.new) (take line.length line.bytes)) }
{
    writer.write_all(line.as_slice())?;
    writer.flush()
}

// Reads a minute and writes its line at once. Gives the board after it, or none where the input ends; a byte that is left over is no minute.
fn show_minute<R: Read, W: Write>(
    reader: &mut R,
    writer: &mut W,
    board: Board,
) -> io::Result<Option<Board>> {
    let mut minute = [0u8; 2];
    let got = read_full(reader, &mut minute)?;
    if got < 2 {
        return Ok(None);
    }
    let shown = minute_line(board, &minute);
    write_line(writer, shown.line)?;
    Ok(Some(shown.board))
}

// A proved loop has to end, and nothing says that an input does. So the loop counts its turns, up to a number that no run comes to.
fn watch<R: Read, W: Write>(reader: &mut R, writer: &mut W, board: Board) -> io::Result<()> {
    let mut now = board;
    for _ in 0..u64::MAX {
        match show_minute(reader, writer, now)? {
            Some(next) => now = next,
            None => return Ok(()),
        }
    }
    Ok(())
}

fn main(rt: HostRuntime) -> io::Result<()> {
    let mut reader = rt.stdin();
    let mut writer = rt.stdout();
    let mut input = [0u8; HELD_SHEET];
    let got = read_sheet(&mut reader, &mut input)?;
    match open_line(&input[..got]) {
        Ok(board) => watch(&mut reader, &mut writer, board),
        Err(line) => write_line(&mut writer, line),
    }
}
