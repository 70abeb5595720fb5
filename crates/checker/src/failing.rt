// The clauses that fail: where one fails first, the first with a role, and the advice.
ghost use Rattle.std.specs.Prelude.{◌≡◌, ◌<◌, ◌≤◌, length};
ghost use Rattle.semantics.specs.Clause.{breaks};
ghost use Rattle.semantics.specs.Verdict.{advice_of};
ghost use Rattle.stored.specs.Bytes.{in_order};
ghost use Rattle.stored.specs.Node.{node_at};
ghost use Rattle.stored.specs.Types.{role_number};
ghost use Rattle.stored.specs.Clause.{clause_of, role_of};
ghost use Rattle.traces.specs.Columns.{trace_of};
ghost use Rattle.intervals.specs.Places.{places, numbered, IsLeast};
ghost use Rattle.checker.specs.Clauses.{LaidOver, Sound, Sounds, clause_at, PlaceIs, FailingIs};

use intervals::search::PLACES;
use places::task::task_of;
use places::walk::{Aim, Job, Spot, walk};
use stored::StoredClause;
use stored::clauses::{Role, stored_at};

// A failing clause, with the number of its first broken place.
#[derive(Clone, Copy)]
pub struct Failing {
    pub clause: usize,
    pub place: usize,
}

// How many nodes, clauses and cycles a check goes over.
#[derive(Clone, Copy)]
pub struct Sizes {
    pub nodes: usize,
    pub clauses: usize,
    pub cycles: usize,
}

// The parts of an accepted sheet over a trace, with which names its nodes reach.
#[derive(Clone, Copy)]
pub struct Parts<'a> {
    pub nodes: &'a [u8],
    pub reach: &'a [usize],
    pub clauses: &'a [u8],
    pub sizes: Sizes,
}

// The number of a clause's first broken place; PLACES, at which the walk for it begins, where there is none.
fn clause_place(
    d: StoredClause,
    parts: Parts,
    columns: &mut [u64],
    words: &mut [u64],
    rows: &mut [u64],
) -> usize
    requires laid { LaidOver parts (trace_of parts.sizes.cycles columns.old) columns.old words.old }
    requires sound { Sound parts.nodes.now parts.sizes.nodes d × (length rows.old ≡ 64) }
    ensures still_laid { LaidOver parts.entry (trace_of parts.entry.sizes.cycles columns.old) columns.new words.new }
    ensures rows_long { length rows.new ≡ 64 }
    ensures least { IsLeast places (numbered (length (trace_of parts.entry.sizes.cycles columns.old)) (breaks (clause_of (node_at parts.entry.nodes.now) d) (trace_of parts.entry.sizes.cycles columns.old))) result }
{
    let task = task_of(d);
    let job = Job {
        task,
        nodes: parts.nodes,
        reach: parts.reach,
        count: parts.sizes.nodes,
        n: parts.sizes.cycles,
        aim: Aim::Place,
        names: task.quantified,
    };
    let spot = Spot {
        left: 3,
        cycles: [0; 3],
    };
    walk(spot, job, PLACES, columns, words, rows)
}

// The number of clause k's first broken place, if it has the role and fails.
fn role_place(
    role: Role,
    k: usize,
    parts: Parts,
    columns: &mut [u64],
    words: &mut [u64],
    rows: &mut [u64],
) -> Option<usize>
    requires laid { LaidOver parts (trace_of parts.sizes.cycles columns.old) columns.old words.old }
    requires sounds { (k < parts.sizes.clauses) × Sounds parts.nodes.now parts.sizes.nodes parts.clauses.now parts.sizes.clauses × (length rows.old ≡ 64) }
    ensures still_laid { LaidOver parts.entry (trace_of parts.entry.sizes.cycles columns.old) columns.new words.new }
    ensures rows_long { length rows.new ≡ 64 }
    ensures place_is { PlaceIs (role_of (role_number role)) (clause_at parts.entry.nodes.now parts.entry.clauses.now k) (trace_of parts.entry.sizes.cycles columns.old) result }
{
    let d = stored_at(parts.clauses, k);
    let number = usize::from(role);
    if d.role != number {
        return None;
    }
    let place = clause_place(d, parts, columns, words, rows);
    if place < PLACES { Some(place) } else { None }
}

// The first clause with the role that fails.
pub fn first_failing(
    role: Role,
    parts: Parts,
    columns: &mut [u64],
    words: &mut [u64],
    rows: &mut [u64],
) -> Option<Failing>
    requires laid { LaidOver parts (trace_of parts.sizes.cycles columns.old) columns.old words.old }
    requires sounds { Sounds parts.nodes.now parts.sizes.nodes parts.clauses.now parts.sizes.clauses × (length rows.old ≡ 64) }
    ensures still_laid { LaidOver parts.entry (trace_of parts.entry.sizes.cycles columns.old) columns.new words.new }
    ensures rows_long { length rows.new ≡ 64 }
    ensures failing_is { FailingIs (role_of (role_number role)) (clause_at parts.entry.nodes.now parts.entry.clauses.now) parts.entry.sizes.clauses (trace_of parts.entry.sizes.cycles columns.old) result }
{
    for k in 0..parts.sizes.clauses {
        let found = role_place(role, k, parts, columns, words, rows);
        if let Some(place) = found {
            return Some(Failing { clause: k, place });
        }
    }
    None
}

// The advice that fails: a byte with bit k set if clause k is such. The loop goes over all clauses, where the one above stops.
pub fn failing_advice(
    parts: Parts,
    columns: &mut [u64],
    words: &mut [u64],
    rows: &mut [u64],
) -> usize
    requires laid { LaidOver parts (trace_of parts.sizes.cycles columns.old) columns.old words.old }
    requires sounds { Sounds parts.nodes.now parts.sizes.nodes parts.clauses.now parts.sizes.clauses × (length rows.old ≡ 64) }
    ensures still_laid { LaidOver parts.entry (trace_of parts.entry.sizes.cycles columns.old) columns.new words.new }
    ensures rows_long { length rows.new ≡ 64 }
    ensures value { result ≡ advice_of (in_order parts.entry.sizes.clauses (clause_at parts.entry.nodes.now parts.entry.clauses.now)) (trace_of parts.entry.sizes.cycles columns.old) }
{
    let mut advice = 0;
    for number in 0..parts.sizes.clauses {
        let found = role_place(Role::Advice, number, parts, columns, words, rows);
        if found.is_some() {
            advice |= 1usize << number;
        }
    }
    advice
}
