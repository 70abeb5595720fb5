// "The clause is broken", by its type, over the parts D1, D2 and D3. Each function writes its formula in order, operands first.
ghost use Rattle.semantics.specs.Proposition.{bit};
ghost use Rattle.semantics.specs.Formula.{at};
ghost use Rattle.semantics.specs.Clause.{pref, init, anti, implies, follows, triggers};
ghost use Rattle.semantics.specs.Translation.{shortest_of, unanswered_of};
ghost use Rattle.stored.specs.Clause.{type_of};
ghost use Rattle.plans.specs.Plan.{Wrote};
ghost use Rattle.clauses.specs.Clauses.{broken_over};

use crate::placing::{besides, both, put_once, put_placed};
use emission::shared::{ANYWHERE, EXTENDED};
use plans::node::{Op, put};
use stored::clauses::ClauseType;

// A part of a clause: a node with a mask of the names that it has.
#[derive(Clone, Copy)]
pub struct Part {
    pub node: usize,
    pub names: usize,
}

fn put_pref(out: &mut [u8], d1: Part) -> usize
    ensures { Wrote out.old out.new result (broken_over pref d1 d1 d1) }
{
    let held = put_placed(out, d1.names, d1.node);
    let missed = put(out, Op::Not(held));
    put(out, Op::Chop(missed, ANYWHERE))
}

fn put_init(out: &mut [u8], d1: Part, d2: Part) -> usize
    ensures { Wrote out.old out.new result (broken_over init d1 d2 d1) }
{
    let rest = besides(d1.names, d2.names);
    let given = put_placed(out, rest, d1.node);
    let somewhere = put(out, Op::Chop(given, ANYWHERE));
    let missed = put(out, Op::Not(somewhere));
    let unanswered = put(out, Op::And(d2.node, missed));
    let placed = put_placed(out, d2.names, unanswered);
    put(out, Op::Chop(placed, ANYWHERE))
}

fn put_anti(out: &mut [u8], d1: Part) -> usize
    ensures { Wrote out.old out.new result (broken_over anti d1 d1 d1) }
{
    let given = put_placed(out, d1.names, d1.node);
    let started = put(out, Op::Chop(given, ANYWHERE));
    put(out, Op::Chop(ANYWHERE, started))
}

fn put_implies(out: &mut [u8], d1: Part, d2: Part) -> usize
    ensures { Wrote out.old out.new result (broken_over implies d1 d2 d1) }
{
    let rest = besides(d2.names, d1.names);
    let given = put_placed(out, rest, d2.node);
    let missed = put(out, Op::Not(given));
    let unanswered = put(out, Op::And(d1.node, missed));
    let placed = put_placed(out, d1.names, unanswered);
    let started = put(out, Op::Chop(placed, ANYWHERE));
    put(out, Op::Chop(ANYWHERE, started))
}

// f, and on no shorter interval with the same beginning.
fn put_shortest(out: &mut [u8], f: usize) -> usize
    ensures { Wrote out.old out.new result (shortest_of (at f)) }
{
    let longer = put(out, Op::Chop(f, EXTENDED));
    let not_longer = put(out, Op::Not(longer));
    put(out, Op::And(f, not_longer))
}

// D3 is Ξ, with the names inside that D1 lacks, and D2 on no interval with the same beginning up to there.
fn put_unanswered(out: &mut [u8], names1: usize, d2: Part, d3: Part) -> usize
    ensures { Wrote out.old out.new result (unanswered_of (bit names1) (at d2.node) (bit d2.names) (at d3.node) (bit d3.names)) }
{
    let added = besides(d3.names, names1);
    let rest = besides(d2.names, both(names1, d3.names));
    let shortest = put_shortest(out, d3.node);
    let ended = put_once(out, added, shortest);
    let given = put_placed(out, rest, d2.node);
    let somewhere = put(out, Op::Chop(given, ANYWHERE));
    let missed = put(out, Op::Not(somewhere));
    put(out, Op::And(ended, missed))
}

fn put_follows(out: &mut [u8], d1: Part, d2: Part, d3: Part) -> usize
    ensures { Wrote out.old out.new result (broken_over follows d1 d2 d3) }
{
    let names = both(d1.names, d3.names);
    let first = put_once(out, d1.names, d1.node);
    let unanswered = put_unanswered(out, d1.names, d2, d3);
    let rest = put(out, Op::Chop(unanswered, ANYWHERE));
    let joined = put(out, Op::Chop(first, rest));
    let placed = put_placed(out, names, joined);
    put(out, Op::Chop(ANYWHERE, placed))
}

// Beside follows: its two halves begin together, so that two steps differ, and no value.
fn put_triggers(out: &mut [u8], d1: Part, d2: Part, d3: Part) -> usize
    ensures { Wrote out.old out.new result (broken_over triggers d1 d2 d3) }
{
    let names = both(d1.names, d3.names);
    let once = put_once(out, d1.names, d1.node);
    let first = put(out, Op::Chop(once, ANYWHERE));
    let unanswered = put_unanswered(out, d1.names, d2, d3);
    let rest = put(out, Op::Chop(unanswered, ANYWHERE));
    let joined = put(out, Op::And(first, rest));
    let placed = put_placed(out, names, joined);
    put(out, Op::Chop(ANYWHERE, placed))
}

// By the type's number, as document 01 stores it.
pub fn put_typed(out: &mut [u8], clause_type: usize, d1: Part, d2: Part, d3: Part) -> usize
    ensures { Wrote out.old out.new result (broken_over (type_of clause_type) d1 d2 d3) }
{
    match ClauseType::from(clause_type) {
        ClauseType::Pref => put_pref(out, d1),
        ClauseType::Init => put_init(out, d1, d2),
        ClauseType::Anti => put_anti(out, d1),
        ClauseType::Implies => put_implies(out, d1, d2),
        ClauseType::Follows => put_follows(out, d1, d2, d3),
        ClauseType::Triggers => put_triggers(out, d1, d2, d3),
    }
}
