// The search for the first unanswered place in three arrays of rows: the intervals of the premise, those of Ξ of D3, and the answers.
ghost use Rattle.std.specs.Prelude.{◌≡◌, not, ◌<◌, ◌≤◌, length};
ghost use Rattle.semantics.specs.Cycles.{some_in};
ghost use Rattle.semantics.specs.Proposition.{bit};
ghost use Rattle.rows.specs.Row.{word};
ghost use Rattle.intervals.specs.Search.{missed};
ghost use Rattle.intervals.specs.Places.{numbered, IsLeast};
ghost use Rattle.intervals.specs.Rows.{type_of, test_of, starting, ending, unreplied, Next};

use rows::mask::{before_first, below, cycles_from, only, up_to};
use stored::clauses::ClauseType;

// One more than the largest number of a place.
pub const PLACES: usize = 262144;

// The least cycle of a set from j on.
fn next(set: u64, j: usize) -> usize
    requires { j ≤ 64 }
    ensures { Next set j result }
{
    let later = set & !below(j);
    u64::trailing_zeros(later) as usize
}

// The ends of intervals from i that may be unanswered.
fn starts(clause_type: ClauseType, first: u64, answers: u64, i: usize, n: usize) -> u64
    requires { n ≤ 64 }
    ensures { result ≡ word n (starting (type_of clause_type) i (bit first) (bit answers)) }
{
    match clause_type {
        ClauseType::Pref => { if i == 0 { below(n) & !answers } else { 0 } }
        ClauseType::Init => {
            if i == 0 {
                below(n) & (first & before_first(answers))
            } else {
                0
            }
        }
        ClauseType::Anti => cycles_from(i, n) & first,
        ClauseType::Implies => cycles_from(i, n) & (first & !answers),
        ClauseType::Follows => cycles_from(i, n) & first,
        ClauseType::Triggers => cycles_from(i, n) & first,
    }
}

// The cycles k at which the interval from i to j may then be unanswered.
fn ends(clause_type: ClauseType, third: &[u64], i: usize, j: usize, n: usize) -> u64
    requires { (n ≤ 64) × (i < n) × (j < n) × (64 ≤ length third.now) }
    ensures { result ≡ word n (ending (type_of clause_type) i j (test_of third.now)) }
{
    match clause_type {
        ClauseType::Pref => only(j),
        ClauseType::Init => only(j),
        ClauseType::Anti => only(j),
        ClauseType::Implies => only(j),
        ClauseType::Follows => cycles_from(j, n) & third[j],
        ClauseType::Triggers => cycles_from(i, n) & third[i],
    }
}

// No cycle of a set lies from s up to k.
fn none_between(set: u64, s: usize, k: usize) -> bool
    requires { k < 64 }
    ensures { result ≡ not (some_in s k (bit set)) }
{
    let later = set & !below(s);
    later & up_to(k) == 0
}

// No answer comes up to k.
fn no_reply(clause_type: ClauseType, answers: &[u64], i: usize, j: usize, k: usize) -> bool
    requires { (i < 64) × (j < 64) × (k < 64) × (64 ≤ length answers.now) }
    ensures { result ≡ unreplied (type_of clause_type) i j (test_of answers.now) k }
{
    match clause_type {
        ClauseType::Pref => true,
        ClauseType::Init => true,
        ClauseType::Anti => true,
        ClauseType::Implies => true,
        ClauseType::Follows => none_between(answers[j], j, k),
        ClauseType::Triggers => none_between(answers[i], i, k),
    }
}

// The number of the first unanswered place by i, then j, then k, of those before the best so far; that one where there is none.
// Document 01 asks for loops over i, j and k, left by label. j and k go from one cycle of a set to the next, by `next`.
pub fn search(
    clause_type: ClauseType,
    first: &[u64],
    third: &[u64],
    answers: &[u64],
    n: usize,
    best: usize,
) -> usize
    requires small { (n ≤ 64) × (best ≤ 262144) }
    requires long_enough { (64 ≤ length first.now) × (64 ≤ length third.now) × (64 ≤ length answers.now) }
    ensures { IsLeast best (numbered n (missed (type_of clause_type) (test_of first.now) (test_of third.now) (test_of answers.now))) result }
{
    let rows = n.min((best + 4095) / 4096);
    let mut place = best;
    'places: for i in 0..rows {
        let from = starts(clause_type, first[i], answers[i], i, n);
        let mut j = next(from, 0);
        while j < n {
            let to = ends(clause_type, third, i, j, n);
            let mut k = next(to, 0);
            while k < n {
                if no_reply(clause_type, answers, i, j, k) {
                    place = (i * 4096 + j * 64 + k).min(best);
                    break 'places;
                }
                k = next(to, k + 1);
            }
            j = next(from, j + 1);
        }
    }
    place
}
