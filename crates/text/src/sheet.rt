// The lines of a typed sheet: a first one with two numbers, then a clause a line.
ghost use Rattle.std.specs.Prelude.{false, ◌≡◌};
ghost use Rattle.typed.specs.Draft.{put_line};
ghost use Rattle.propositions.specs.Reads.{ahead};
ghost use Rattle.text.specs.Parts.{finished, a_line_after, has_line, LineReady, LineRead, LinesRead, SheetRead};

use crate::clause::{Clauses, clause};
use lexer::{Token, next};
use propositions::leaf;
use propositions::nodes::Nodes;
use propositions::words::{ASSUME_WORD, LINE_END, REQUIRE_WORD};

// The numbers of a text's first line.
#[derive(Clone, Copy)]
pub struct GotSheet {
    pub signals: usize,
    pub names: usize,
}

// Whether no token is left.
fn ended(text: &[u8], at: usize) -> bool
    ensures { result ≡ finished (ahead text.now at) }
{
    matches!(next(text, at).token, Token::End)
}

// A role, a clause and the end of the line.
fn line(text: &[u8], at: usize, nodes: &mut Nodes, clauses: &mut Clauses) -> Option<usize>
    requires { LineReady text.now at nodes.old clauses.old × (finished (ahead text.now at) ≡ false) }
    ensures { LineRead a_line_after has_line put_line text.now at nodes.old clauses.old
        nodes.new clauses.new result }
{
    let word = leaf::word(text, at, ASSUME_WORD, REQUIRE_WORD)?;
    let said = clause(text, word.at, word.value, nodes, clauses)?;
    leaf::sign(text, said, LINE_END)
}

// All lines from `at` on, to the end of the text.
fn lines(text: &[u8], at: usize, nodes: &mut Nodes, clauses: &mut Clauses) -> Option<()>
    requires { LineReady text.now at nodes.old clauses.old }
    ensures { LinesRead text.now at nodes.old clauses.old nodes.new clauses.new result }
{
    let mut here = at;
    while !ended(text, here) {
        here = line(text, here, nodes, clauses)?;
    }
    Some(())
}

// The whole text, into nodes and clauses of which there are none.
pub fn sheet(text: &[u8], nodes: &mut Nodes, clauses: &mut Clauses) -> Option<GotSheet>
    requires { (nodes.old.count ≡ 0) × (clauses.old.count ≡ 0) }
    ensures { SheetRead text.now nodes.old clauses.old nodes.new clauses.new result }
{
    let s = leaf::number(text, 0)?;
    let m = leaf::number(text, s.at)?;
    let end = leaf::sign(text, m.at, LINE_END)?;
    lines(text, end, nodes, clauses)?;
    Some(GotSheet {
        signals: s.value,
        names: m.value,
    })
}
