// Drawings told by other formulas.
ghost use Rattle.std.specs.Prelude.{◌≡◌, ◌<◌};
ghost use Rattle.semantics.specs.Proposition.{signal, negated};
ghost use Rattle.semantics.specs.Formula.{slen, at_least, steady};
ghost use Rattle.semantics.specs.Translation.{undrawn_symbol, undrawn_mark, undrawn_gap};
ghost use Rattle.stored.specs.Tree.{symbol_of};
ghost use Rattle.plans.specs.Plan.{WroteProposition, Wrote};

use crate::shared::ANYWHERE;
use plans::node::{Op, put};
use rows::count::Comparison;
use rows::shape::Symbol;

// That signal k is low.
fn put_low(out: &mut [u8], k: usize) -> usize
    ensures { WroteProposition out.old out.new result (negated (signal k)) }
{
    let high = put(out, Op::Signal(k));
    put(out, Op::Negated(high))
}

// Signal k low all along, or high all along.
fn put_steady(out: &mut [u8], k: usize) -> usize
    ensures { Wrote out.old out.new result (undrawn_symbol steady k) }
{
    let low = put_low(out, k);
    let all_low = put(out, Op::Stretch(low));
    let high = put(out, Op::Signal(k));
    let all_high = put(out, Op::Stretch(high));
    put(out, Op::Or(all_low, all_high))
}

// Symbol q on signal k.
pub fn put_symbol(out: &mut [u8], q: usize, k: usize) -> usize
    ensures { Wrote out.old out.new result (undrawn_symbol (symbol_of q) k) }
{
    match Symbol::from(q) {
        Symbol::Low => {
            let low = put_low(out, k);
            put(out, Op::Unit(low))
        }
        Symbol::High => {
            let high = put(out, Op::Signal(k));
            put(out, Op::Unit(high))
        }
        Symbol::Either => put(out, Op::Length(Comparison::Equal, 1)),
        Symbol::LowStretch => {
            let low = put_low(out, k);
            put(out, Op::Stretch(low))
        }
        Symbol::HighStretch => {
            let high = put(out, Op::Signal(k));
            put(out, Op::Stretch(high))
        }
        Symbol::EitherStretch => ANYWHERE,
        Symbol::Steady => put_steady(out, k),
    }
}

// A mark of name u, on an interval of length 0.
pub fn put_mark(out: &mut [u8], u: usize) -> usize
    requires { u < 65536 }
    ensures { Wrote out.old out.new result (undrawn_mark u) }
{
    let here = put(out, Op::Length(Comparison::Equal, 0));
    let marked = put(out, Op::Point(3 + 2 * u));
    put(out, Op::And(here, marked))
}

// A length of `least` or more.
fn put_least(out: &mut [u8], least: usize) -> usize
    ensures { Wrote out.old out.new result (slen at_least least) }
{
    if least == 0 {
        ANYWHERE
    } else {
        put(out, Op::Length(Comparison::AtLeast, least))
    }
}

// From a mark of name u to one of name v, `least` to `most` cycles.
pub fn put_gap(out: &mut [u8], u: usize, v: usize, least: usize, most: usize) -> usize
    requires { (u < 65536) × (v < 65536) }
    ensures { Wrote out.old out.new result (undrawn_gap u v least most) }
{
    let start = put(out, Op::Point(3 + 2 * u));
    let not_less = put_least(out, least);
    let not_more = put(out, Op::Length(Comparison::AtMost, most));
    let range = put(out, Op::And(not_less, not_more));
    let gap = put(out, Op::And(start, range));
    let end = put(out, Op::Point(3 + 2 * v));
    let inner = put(out, Op::Chop(gap, end));
    put(out, Op::Chop(ANYWHERE, inner))
}
