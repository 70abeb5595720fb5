// One cycle more: the check on the board's trace with it.
ghost use Rattle.std.specs.Prelude.{◌≡◌, ◌≤◌, ◌<◌, length};
ghost use Rattle.stored.specs.Layout.{most_cycles};
ghost use Rattle.traces.specs.Written.{trace_bytes};
ghost use Rattle.checker.specs.Table.{words_after};
ghost use Rattle.checker.specs.Check.{check_answer, check_refusal};
ghost use Rattle.board.specs.Board.{signals_on, held_right, feed_refusal, admission_of, feed_answer, next_board};
ghost use Rattle.board.specs.Feeds.{lent, taken_from, words_left, Told};
ghost use Rattle.board.specs.Lasting.{Unhealed};

use crate::{Board, Fed};
use checker::check::{Verdict, check};
use lines::input::split;
use stored::layout::{LEAST_WORDS, MOST_CYCLES, MOST_TRACE};
use stored::refusal::Refusal;
use stored::sheet::read_sheet;
use traces::trace::is_below;
use traces::writer::{put_trace, trace_end};

// There are at most 64 cycles, and none of them has a bit from s up.
fn are_held(cycles: &[u16], taken: usize, s: usize) -> bool
    requires { length cycles.now ≡ most_cycles }
    ensures { result ≡ held_right s taken cycles.now }
{
    if MOST_CYCLES < taken {
        return false;
    }
    cycles[..taken]
        .iter()
        .all(|cycle| is_below(*cycle as usize, s))
}

// How many signals the board's sheet has, where the board takes the cycle. Refused are its sheet by 1 to 9, its cycles by 13, the words by
// 15 and the cycle by 21 and 22.
fn admit(board: Board, cycle: u16, words: &[u64]) -> Result<usize, Refusal>
    ensures { result ≡ admission_of board cycle words.now }
{
    let bytes = board.sheet;
    let cycles = board.cycles;
    let taken = board.taken;
    let end = split(&bytes);
    let s = read_sheet(&bytes[0..end])?.signals;
    if !are_held(&cycles, taken, s) {
        return Err(Refusal::InvalidCycles);
    }
    if words.len() < LEAST_WORDS {
        return Err(Refusal::FewWords);
    }
    if !is_below(cycle as usize, s) {
        return Err(Refusal::InvalidCycle);
    }
    if MOST_CYCLES <= taken {
        return Err(Refusal::BoardFull);
    }
    Ok(s)
}

// The check's answer on the stored trace of cycles.
fn check_cycles(
    sheet: &[u8],
    s: usize,
    cycles: &[u16],
    words: &mut [u64],
) -> Result<Verdict, Refusal>
    requires { (s < 256) × (length cycles.now ≤ most_cycles) }
    ensures value { result ≡ check_answer sheet.now (trace_bytes s cycles.now) words.old }
    ensures words_after { words.new ≡ words_after (check_refusal sheet.now (trace_bytes s cycles.now) words.old) words.old }
{
    let mut trace = [0u8; MOST_TRACE];
    put_trace(&mut trace, s, cycles);
    let end = trace_end(cycles.len());
    check(sheet, &trace[0..end], words)
}

impl Board {
    // The board with a cycle more and the verdict on its cycles, where the board takes it.
    fn take(self, cycle: u16, s: usize, words: &mut [u64]) -> Fed
        requires { (feed_refusal self cycle words.old ≡ 0) × (s ≡ signals_on self) }
        ensures board_value { result.board ≡ next_board self cycle words.old }
        ensures answer_value { result.answer ≡ feed_answer self cycle words.old }
        ensures words_after { words.new ≡ words_after 0 words.old }
    {
        let sheet = self.sheet;
        let taken = self.taken;
        let mut cycles = self.cycles;
        cycles[taken] = cycle;
        let next = taken + 1;
        let end = split(&sheet);
        let answer = check_cycles(&sheet[0..end], s, &cycles[0..next], words);
        let board = Board {
            sheet,
            cycles,
            taken: next,
            verdict: answer.ok(),
        };
        Fed { board, answer }
    }

    // Feeds a cycle: the next board, with the verdict of the check on its cycles; or the board as it was, with the refusal.
    // The lent words are all zero afterwards, or as they were where it is refused. What was broken on the board is
    // broken on the next one: that is the last promise.
    pub fn feed(self, cycle: u16, words: &mut [u64]) -> Fed
        ensures board_value { result.board ≡ next_board self cycle words.old }
        ensures answer_value { result.answer ≡ feed_answer self cycle words.old }
        ensures words_after { words.new ≡ words_after (feed_refusal self cycle words.old) words.old }
        ensures unhealed { Unhealed self result.board }
    {
        match admit(self, cycle, words) {
            Ok(s) => self.take(cycle, s, words),
            Err(refusal) => Fed {
                board: self,
                answer: Err(refusal),
            },
        }
    }

    // Feeds cycles one after the other, and hands back the board after the last. That it shows the check's answer on the cycles taken is
    // the first promise, that what was broken stays broken the last.
    pub fn feed_all(self, cycles: &[u16], words: &mut [u64]) -> Board
        ensures told { Told self (lent words.old cycles.now) result }
        ensures words_after { words.new ≡ words_left (taken_from self (lent words.old cycles.now)) words.old }
        ensures unhealed { Unhealed self result }
    {
        let mut board = self;
        for cycle in cycles {
            board = board.feed(*cycle, words).board;
        }
        board
    }
}
