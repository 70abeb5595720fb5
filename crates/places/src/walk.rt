// The walk over placements: every cycle for each name that a clause quantifies universally and, within, for each name of its answer
// that is left. It looks for the first broken place, and only before the best one so far.
ghost use Rattle.std.specs.Prelude.{◌≡◌, true, ◌+◌, ◌<◌, ◌≤◌, length};
ghost use Rattle.semantics.specs.Proposition.{bit};
ghost use Rattle.traces.specs.Columns.{trace_of};
ghost use Rattle.tables.specs.Table.{standing};
ghost use Rattle.intervals.specs.Gather.{Adds};
ghost use Rattle.places.specs.Laid.{LaidFor, Walkable, Unneeded, Walked, with_next, over_last, reply_on, missed_on, low_of, last_of};
ghost use Rattle.intervals.specs.Places.{IsLeast};
ghost use Rattle.intervals.specs.Rows.{type_of};
ghost use Rattle.intervals.specs.Search.{premised};

use crate::task::Task;
use intervals::gather::add;
use intervals::search::search;
use stored::clauses::ClauseType;
use stored::masks::has_name;
use tables::fill::lay;
use tables::words::clear;

// Which names are placed and where: the last ones, as many as are left, are not yet.
#[derive(Clone, Copy)]
pub struct Spot {
    pub left: usize,
    pub cycles: [usize; 3],
}

// What a walk does at each placement: it looks for the first unanswered place, or gathers the answers. A case and no closure, since a
// walk for places has a walk for answers inside, and the two are proved as one cycle.
#[derive(Clone, Copy)]
pub enum Aim {
    Place,
    Answers,
}

// What never changes during a walk: the clause's task, the sheet's nodes and which names they reach, how many nodes and cycles there
// are, the aim, and the names that are moved.
#[derive(Clone, Copy)]
pub struct Job<'a> {
    pub task: Task,
    pub nodes: &'a [u8],
    pub reach: &'a [usize],
    pub count: usize,
    pub n: usize,
    pub aim: Aim,
    pub names: usize,
}

// The next name put on cycle t.
fn onto(spot: Spot, t: usize) -> Spot
    requires { (0 < spot.left) × (spot.left ≤ 3) }
    ensures { result ≡ with_next spot t }
{
    let left = spot.left;
    let u = 3 - left;
    let mut cycles = spot.cycles;
    cycles[u] = t;
    Spot {
        left: left - 1,
        cycles,
    }
}

// The cycles that a walk goes through for one name, from the first and without the end: all of the trace if it moves, else the one
// on which it stands.
fn cycles_of(moves: bool, n: usize, at: usize) -> (usize, usize)
    requires { (at < n) × (n ≤ 64) }
    ensures first { result.0 ≡ low_of moves at }
    ensures end { result.1 ≡ last_of moves n at + 1 }
{
    if moves { (0, n) } else { (at, at + 1) }
}

// Whether no completion of the spot has an unanswered place before the best: the walk then passes over them all.
fn hopeless(spot: Spot, job: Job, best: usize, columns: &mut [u64], words: &mut [u64]) -> bool
    requires { Walkable spot job best columns.old words.old }
    ensures laid { LaidFor job.entry (trace_of job.entry.n columns.old) columns.new words.new }
    ensures unneeded { result ≡ true → Unneeded spot job.entry best (trace_of job.entry.n columns.old) }
{
    match job.aim {
        Aim::Place => best == 0,
        Aim::Answers => false,
    }
}

// Every type but pref starts from a premise.
fn is_premised(clause_type: ClauseType) -> bool
    ensures { result ≡ premised (type_of clause_type) }
{
    match clause_type {
        ClauseType::Pref => false,
        ClauseType::Init => true,
        ClauseType::Anti => true,
        ClauseType::Implies => true,
        ClauseType::Follows => true,
        ClauseType::Triggers => true,
    }
}

// Adds the answers of one placement to the rows.
fn answer(
    spot: Spot,
    job: Job,
    best: usize,
    columns: &mut [u64],
    words: &mut [u64],
    rows: &mut [u64],
)
    requires walkable { Walkable spot job best columns.old words.old }
    requires rows_long { length rows.old ≡ 64 }
    ensures laid { LaidFor job.entry (trace_of job.entry.n columns.old) columns.new words.new }
    ensures rows_kept { length rows.new ≡ 64 }
    ensures adds { Adds job.entry.n rows.old rows.new (λ b e. reply_on job.entry.nodes.now (trace_of job.entry.n columns.old) job.entry.task b e (standing spot.cycles)) }
{
    let task = job.task;
    let n = job.n;
    let cycles = spot.cycles;
    lay(job.nodes, job.count, n, job.reach, cycles, columns, words);
    let _ = add(words, task.reply, task.replies, false, cycles, n, rows);
}

// The first unanswered place of one placement, of those before the best. The answers are gathered in the rows, and only where
// something is open without any.
#[cycle(find_walk)]
fn find(
    spot: Spot,
    job: Job,
    best: usize,
    columns: &mut [u64],
    words: &mut [u64],
    rows: &mut [u64],
) -> usize
    requires walkable { Walkable spot job best columns.old words.old }
    requires rows_long { length rows.old ≡ 64 }
    ensures laid { LaidFor job.entry (trace_of job.entry.n columns.old) columns.new words.new }
    ensures rows_kept { length rows.new ≡ 64 }
    ensures least { IsLeast best (λ y. missed_on job.entry.nodes.now (trace_of job.entry.n columns.old) job.entry.n job.entry.task y (standing spot.cycles)) result }
{
    let task = job.task;
    let n = job.n;
    let cycles = spot.cycles;
    let clause_type = task.clause_type;
    lay(job.nodes, job.count, n, job.reach, cycles, columns, words);
    let mut first = [0u64; 64];
    let some = add(
        words,
        task.premise,
        task.premises,
        false,
        cycles,
        n,
        &mut first,
    );
    if (some == 0) & is_premised(clause_type) {
        return best;
    }
    let mut third = [0u64; 64];
    let _ = add(words, task.third, task.thirds, true, cycles, n, &mut third);
    clear(rows);
    let open = search(clause_type, &first, &third, rows, n, best);
    if open == best {
        return best;
    }
    let within = Job {
        aim: Aim::Answers,
        names: task.replies,
        ..job
    };
    let _ = walk(Spot { left: 3, cycles }, within, best, columns, words, rows);
    search(clause_type, &first, &third, rows, n, best)
}

// Every completion of the spot: the least unanswered place before the best, or the answers added to the rows.
#[cycle(find_walk)]
pub fn walk(
    spot: Spot,
    job: Job,
    best: usize,
    columns: &mut [u64],
    words: &mut [u64],
    rows: &mut [u64],
) -> usize
    requires walkable { Walkable spot job best columns.old words.old }
    requires rows_long { length rows.old ≡ 64 }
    ensures laid { LaidFor job.entry (trace_of job.entry.n columns.old) columns.new words.new }
    ensures rows_kept { length rows.new ≡ 64 }
    ensures walked { Walked job.entry (trace_of job.entry.n columns.old) best result rows.old rows.new (over_last spot.left (bit job.entry.names) job.entry.n (standing spot.cycles)) }
{
    if hopeless(spot, job, best, columns, words) {
        return best;
    }
    let left = spot.left;
    if left == 0 {
        return match job.aim {
            Aim::Place => find(spot, job, best, columns, words, rows),
            Aim::Answers => {
                answer(spot, job, best, columns, words, rows);
                best
            }
        };
    }
    let u = 3 - left;
    let cycles = spot.cycles;
    let moves = has_name(job.names, u);
    let (first, end) = cycles_of(moves, job.n, cycles[u]);
    let mut least = best;
    for t in first..end {
        least = walk(onto(spot, t), job, least, columns, words, rows);
    }
    least
}
