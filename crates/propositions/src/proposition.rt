// Propositions: | joins what & joins, & joins pieces, and any number of ! stands before a piece.
ghost use Rattle.std.specs.Prelude.{◌≤◌, ◌≡◌, length};
ghost use Rattle.typed.specs.Draft.{put_or_p, put_and_p, put_unit_p};
ghost use Rattle.propositions.specs.Propositions.{about_both, has_both, ByAnd, about_unit, has_unit, about_bracket_p, NoNot, Nots};
ghost use Rattle.propositions.specs.Propositions.{Negatable, Negated, single};
ghost use Rattle.propositions.specs.Reads.{Ready, Reads, Closes, before_p, after, next};

use crate::leaf;
use crate::leaf::Leaf;
use crate::nodes::Nodes;
use crate::words::{AND_SIGN, CLOSE_ROUND, FALSE_WORD, NOT_SIGN, OPEN_ROUND, OR_SIGN, TRUE_WORD};
use lexer::{Token, next};
use stored::{Node, ops};

// How many ! there are from `at` on, and the place after them.
fn nots(text: &[u8], at: usize) -> Leaf
    requires { at ≤ length text.now }
    ensures { Nots text.now at result }
{
    let mut count = 0;
    let mut place = at;
    while let Some(after) = leaf::sign(text, place, NOT_SIGN) {
        count += 1;
        place = after;
    }
    Leaf {
        value: count,
        at: place,
    }
}

// So many times a ! over the last node.
fn negate(signs: usize, nodes: &mut Nodes)
    requires { Negatable signs nodes.old }
    ensures { Negated signs nodes.old nodes.new }
{
    for _ in 0..signs {
        nodes.over(ops::NOT_P, 0, 0);
    }
}

// The node of a piece of one token: true, false, a signal or a name.
fn single(token: Token) -> Option<Node>
    ensures { result ≡ single token }
{
    let (op, a) = match token {
        Token::Signal(k) => (ops::SIGNAL, k),
        Token::Name(u) => (ops::NAME, u),
        Token::Plain(TRUE_WORD) => (ops::TRUE, 0),
        Token::Plain(FALSE_WORD) => (ops::FALSE, 0),
        _ => return None,
    };
    Some(Node { op, q: 0, a, b: 0 })
}

// A proposition in round brackets, from the first bracket on.
#[cycle(atom_both_bracket_proposition_unit)]
pub fn bracket(text: &[u8], at: usize, depth: usize, nodes: &mut Nodes) -> Option<usize>
    requires { Ready text.now at nodes.old }
    ensures { Reads about_bracket_p next put_or_p depth text.now at nodes.old nodes.new result }
{
    let open = leaf::opened(text, at, depth)?;
    let inner = proposition(text, open, depth - 1, nodes)?;
    leaf::sign(text, inner, CLOSE_ROUND)
}

// A piece before which there is no !: a single token, or a proposition in round brackets.
#[cycle(atom_both_bracket_proposition_unit)]
fn atom(text: &[u8], at: usize, depth: usize, nodes: &mut Nodes) -> Option<usize>
    requires ready { Ready text.now at nodes.old }
    requires no_not { NoNot text.now at }
    ensures { Reads about_unit has_unit put_unit_p depth text.now at nodes.old nodes.new result }
{
    let first = next(text, at);
    if first.token == Token::Plain(OPEN_ROUND) {
        return bracket(text, at, depth, nodes);
    }
    let node = single(first.token)?;
    nodes.put(node);
    Some(first.at)
}

// A piece with the ! before it.
#[cycle(atom_both_bracket_proposition_unit)]
fn unit(text: &[u8], at: usize, depth: usize, nodes: &mut Nodes) -> Option<usize>
    requires { Ready text.now at nodes.old }
    ensures { Reads about_unit has_unit put_unit_p depth text.now at nodes.old nodes.new result }
{
    let signs = nots(text, at);
    let after = atom(text, signs.at, depth, nodes)?;
    negate(signs.value, nodes);
    Some(after)
}

// Pieces joined by &. It differs from `proposition` in its operands, its sign and its op: one function of the two would have to tell at
// each of these places which it is.
#[cycle(atom_both_bracket_proposition_unit)]
fn both(text: &[u8], at: usize, depth: usize, nodes: &mut Nodes) -> Option<usize>
    requires { Ready text.now at nodes.old }
    ensures { Closes about_both has_both put_and_p ByAnd depth text.now at nodes.old nodes.new result }
{
    let mut here = unit(text, at, depth, nodes)?;
    while let Some(joiner) = leaf::sign(text, here, AND_SIGN) {
        let left = nodes.count;
        here = unit(text, joiner, depth, nodes)?;
        nodes.join(ops::AND_P, left);
    }
    Some(here)
}

// A proposition, in which `depth` more round brackets may be opened.
#[cycle(atom_both_bracket_proposition_unit)]
pub fn proposition(text: &[u8], at: usize, depth: usize, nodes: &mut Nodes) -> Option<usize>
    requires { Ready text.now at nodes.old }
    ensures { Reads before_p after put_or_p depth text.now at nodes.old nodes.new result }
{
    let mut here = both(text, at, depth, nodes)?;
    while let Some(joiner) = leaf::sign(text, here, OR_SIGN) {
        let left = nodes.count;
        here = both(text, joiner, depth, nodes)?;
        nodes.join(ops::OR_P, left);
    }
    Some(here)
}
