// Formulas: | joins what & joins, & joins what ^ joins, ^ joins pieces; a bracketed formula is a piece, and may carry a star.
ghost use Rattle.std.specs.Prelude.{◌≤◌};
ghost use Rattle.typed.specs.Draft.{put_or_f};
ghost use Rattle.propositions.specs.Reads.{Ready, Reads, before_f, after};
ghost use Rattle.formulas.specs.Pieces.{about_bracket_f, ReadsLevel, ReadsPiece};

use crate::piece::piece;
use lexer::{Token, next};
use propositions::leaf;
use propositions::nodes::Nodes;
use propositions::words::{CHOP_SIGN, CLOSE_ROUND, OPEN_ROUND, STAR_SIGN};
use stored::ops;

// How tightly a formula binds: level 0 is a single piece, level 1 joins pieces by ^, level 2 joins those by &, level 3 those by |.
const FORMULA: usize = 3;

// A formula in round brackets, from the first bracket on, and the star that may follow it.
#[cycle(bracket_formula_joined_term)]
fn bracket(text: &[u8], at: usize, depth: usize, nodes: &mut Nodes) -> Option<usize>
    requires { Ready text.now at nodes.old }
    ensures { ReadsPiece about_bracket_f depth text.now at nodes.old nodes.new result }
{
    let open = leaf::opened(text, at, depth)?;
    let inner = formula(text, open, depth - 1, nodes)?;
    let close = leaf::sign(text, inner, CLOSE_ROUND)?;
    let Some(star) = leaf::sign(text, close, STAR_SIGN) else {
        return Some(close);
    };
    nodes.over(ops::STAR, 0, 0);
    Some(star)
}

// A single piece.
#[cycle(bracket_formula_joined_term)]
fn term(text: &[u8], at: usize, depth: usize, nodes: &mut Nodes) -> Option<usize>
    requires { Ready text.now at nodes.old }
    ensures { ReadsLevel 0 depth text.now at nodes.old nodes.new result }
{
    let first = next(text, at);
    match first.token {
        Token::Plain(OPEN_ROUND) => bracket(text, at, depth, nodes),
        Token::Plain(word) => piece(text, first.at, depth, nodes, word),
        _ => None,
    }
}

// A formula of this level. The joiner of level 1 is ^ with the op of a chop; one sign before it and one op after it are those of
// level 2, and so on.
#[cycle(bracket_formula_joined_term)]
fn joined(text: &[u8], at: usize, depth: usize, level: usize, nodes: &mut Nodes) -> Option<usize>
    requires ready { Ready text.now at nodes.old }
    requires known_level { level ≤ 3 }
    ensures { ReadsLevel level depth text.now at nodes.old nodes.new result }
{
    if level == 0 {
        return term(text, at, depth, nodes);
    }
    let below = level - 1;
    let sign = CHOP_SIGN - below;
    let mut here = joined(text, at, depth, below, nodes)?;
    while let Some(more) = leaf::sign(text, here, sign) {
        let left = nodes.count;
        here = joined(text, more, depth, below, nodes)?;
        nodes.join(ops::CHOP + below, left);
    }
    Some(here)
}

// A formula, in which `depth` more round brackets may be opened.
#[cycle(bracket_formula_joined_term)]
pub fn formula(text: &[u8], at: usize, depth: usize, nodes: &mut Nodes) -> Option<usize>
    requires { Ready text.now at nodes.old }
    ensures { Reads before_f after put_or_f depth text.now at nodes.old nodes.new result }
{
    joined(text, at, depth, FORMULA, nodes)
}
