// The pieces of a formula that have no formula in them. Each is read from the place after the word or sign that it begins with.
ghost use Rattle.std.specs.Prelude.{◌≡◌, ◌<◌, ℕ};
ghost use Rattle.propositions.specs.Reads.{Ready, Reads, next};
ghost use Rattle.formulas.specs.Pieces.{about_bounded, put_bounded, about_slen, put_slen, about_counted, put_counted, about_draw, put_draw, about_at, put_at, about_gap, put_gap, about_piece, ReadsPiece};

use propositions::leaf;
use propositions::nodes::Nodes;
use propositions::proposition::{bracket, proposition};
use propositions::words::{
    ABOVE_SIGN, AT_WORD, BELOW_SIGN, CLOSE_BRACES, CLOSE_ROUND, CLOSE_SQUARE, CLOSE_SQUARES, COMMA,
    DRAW_WORD, GAP_WORD, OPEN_BRACES, OPEN_SQUARE, OPEN_SQUARES, SCOUNT_WORD, SDUR_WORD, SLEN_WORD,
};
use stored::{Node, ops};
use typed::draft;

// <a>, [a], [[a]], {{a}}, by the closing sign and the op.
fn bounded(
    text: &[u8],
    at: usize,
    depth: usize,
    nodes: &mut Nodes,
    close: usize,
    op: usize,
) -> Option<usize>
    requires ready { Ready text.now at nodes.old }
    requires known_sign { (close < 30) × (op < 256) }
    requires other_word { (close ≡ 22 → ⊥) × (close ≡ 23 → ⊥) }
    ensures { Reads (about_bounded close) next (put_bounded op) depth text.now at nodes.old nodes.new result }
{
    let inner = proposition(text, at, depth, nodes)?;
    let end = leaf::sign(text, inner, close)?;
    nodes.over(op, 0, 0);
    Some(end)
}

// slen compared with a number.
fn slen(text: &[u8], at: usize, nodes: &mut Nodes) -> Option<usize>
    requires { Ready text.now at nodes.old }
    ensures { (depth : ℕ) → Reads about_slen next put_slen depth text.now at nodes.old nodes.new result }
{
    let compared = leaf::comparison(text, at)?;
    let end = leaf::number(text, compared.at)?;
    nodes.put(Node {
        op: ops::SLEN,
        q: compared.value,
        a: 0,
        b: end.value,
    });
    Some(end.at)
}

// scount (a) and sdur (a) compared with a number, by the op.
fn counted(text: &[u8], at: usize, depth: usize, nodes: &mut Nodes, op: usize) -> Option<usize>
    requires ready { Ready text.now at nodes.old }
    requires known_op { op < 256 }
    ensures { Reads about_counted next (put_counted op) depth text.now at nodes.old nodes.new result }
{
    let inner = bracket(text, at, depth, nodes)?;
    let compared = leaf::comparison(text, inner)?;
    let end = leaf::number(text, compared.at)?;
    nodes.over(op, compared.value, end.value);
    Some(end.at)
}

// draw(q, signal).
fn draw(text: &[u8], at: usize, depth: usize, nodes: &mut Nodes) -> Option<usize>
    requires { Ready text.now at nodes.old }
    ensures { Reads about_draw next put_draw depth text.now at nodes.old nodes.new result }
{
    let open = leaf::opened(text, at, depth)?;
    let symbol = leaf::number(text, open)?;
    let comma = leaf::sign(text, symbol.at, COMMA)?;
    let signal = leaf::signal(text, comma)?;
    let end = leaf::sign(text, signal.at, CLOSE_ROUND)?;
    nodes.put(Node {
        op: ops::SYMBOL,
        q: draft::in_byte(symbol.value),
        a: signal.value,
        b: 0,
    });
    Some(end)
}

// at(name).
fn at_name(text: &[u8], at: usize, depth: usize, nodes: &mut Nodes) -> Option<usize>
    requires { Ready text.now at nodes.old }
    ensures { Reads about_at next put_at depth text.now at nodes.old nodes.new result }
{
    let open = leaf::opened(text, at, depth)?;
    let name = leaf::name(text, open)?;
    let end = leaf::sign(text, name.at, CLOSE_ROUND)?;
    nodes.put(Node {
        op: ops::MARK,
        q: 0,
        a: name.value,
        b: 0,
    });
    Some(end)
}

// gap(name, name, a, b).
fn gap(text: &[u8], at: usize, depth: usize, nodes: &mut Nodes) -> Option<usize>
    requires { Ready text.now at nodes.old }
    ensures { Reads about_gap next put_gap depth text.now at nodes.old nodes.new result }
{
    let open = leaf::opened(text, at, depth)?;
    let first = leaf::name(text, open)?;
    let comma1 = leaf::sign(text, first.at, COMMA)?;
    let second = leaf::name(text, comma1)?;
    let comma2 = leaf::sign(text, second.at, COMMA)?;
    let least = leaf::number(text, comma2)?;
    let comma3 = leaf::sign(text, least.at, COMMA)?;
    let most = leaf::number(text, comma3)?;
    let end = leaf::sign(text, most.at, CLOSE_ROUND)?;
    nodes.put(Node {
        op: ops::GAP,
        q: 16 * first.value + second.value,
        a: least.value,
        b: most.value,
    });
    Some(end)
}

// The piece that begins with this word or sign, but no round bracket. A match and no table of functions, since they are told other things.
pub fn piece(text: &[u8], at: usize, depth: usize, nodes: &mut Nodes, word: usize) -> Option<usize>
    requires ready { Ready text.now at nodes.old }
    requires other_word { word ≡ 22 → ⊥ }
    ensures { ReadsPiece (about_piece word) depth text.now at nodes.old nodes.new result }
{
    match word {
        BELOW_SIGN => bounded(text, at, depth, nodes, ABOVE_SIGN, ops::POINT),
        OPEN_SQUARE => bounded(text, at, depth, nodes, CLOSE_SQUARE, ops::STRETCH),
        OPEN_SQUARES => bounded(text, at, depth, nodes, CLOSE_SQUARES, ops::WHOLE),
        OPEN_BRACES => bounded(text, at, depth, nodes, CLOSE_BRACES, ops::UNIT),
        SLEN_WORD => slen(text, at, nodes),
        SCOUNT_WORD => counted(text, at, depth, nodes, ops::SCOUNT),
        SDUR_WORD => counted(text, at, depth, nodes, ops::SDUR),
        DRAW_WORD => draw(text, at, depth, nodes),
        AT_WORD => at_name(text, at, depth, nodes),
        GAP_WORD => gap(text, at, depth, nodes),
        _ => None,
    }
}
