// Names placed over a formula.
ghost use Rattle.std.specs.Prelude.{◌≡◌};
ghost use Rattle.semantics.specs.Proposition.{bit};
ghost use Rattle.semantics.specs.Formula.{at};
ghost use Rattle.semantics.specs.Placement.{union, without};
ghost use Rattle.semantics.specs.Translation.{once, placed};
ghost use Rattle.plans.specs.Plan.{Wrote};
ghost use Rattle.clauses.specs.Clauses.{names_over};

use plans::node::{Op, put};
use stored::layout::MOST_NAMES;
use stored::masks::has_name;

// Both sets of names.
pub fn both(a: usize, b: usize) -> usize
    ensures { bit result ≡ union (bit a) (bit b) }
{
    a | b
}

// The names of one set that another lacks.
pub fn besides(a: usize, b: usize) -> usize
    ensures { bit result ≡ without (bit a) (bit b) }
{
    a & !b
}

// Each of the names has one mark, which is in a column of its own where `own` says so. A closure for that step would be no plainer: it
// needs a contract over plans.
fn put_names(out: &mut [u8], names: usize, f: usize, own: bool) -> usize
    ensures { Wrote out.old out.new result (names_over own (bit names) (at f)) }
{
    let mut node = f;
    for u in (0..MOST_NAMES).rev() {
        if has_name(names, u) {
            node = put(out, Op::And(4 + 2 * u, node));
            if own {
                node = put(out, Op::Column(u, node));
            }
        }
    }
    node
}

// Each of the names has one mark.
pub fn put_once(out: &mut [u8], names: usize, f: usize) -> usize
    ensures { Wrote out.old out.new result (once (bit names) (at f)) }
{
    put_names(out, names, f, false)
}

// Each of the names has one mark, in a column of its own.
pub fn put_placed(out: &mut [u8], names: usize, f: usize) -> usize
    ensures { Wrote out.old out.new result (placed (bit names) (at f)) }
{
    put_names(out, names, f, true)
}
