// The check: the verdict of a sheet on a trace.
ghost use Rattle.std.specs.Prelude.{◌≡◌, length, replicate};
ghost use Rattle.stored.specs.Bytes.{in_order};
ghost use Rattle.traces.specs.Columns.{trace_of};
ghost use Rattle.semantics.specs.Verdict.{finding_of, verdict};
ghost use Rattle.tables.specs.Ready.{Given};
ghost use Rattle.checker.specs.Table.{words_after};
ghost use Rattle.checker.specs.Check.{told, told_whole, check_answer, check_refusal};
ghost use Rattle.checker.specs.Clauses.{LaidOver, Sounds, clause_at, place_of};

use crate::failing::{Parts, Sizes, failing_advice, first_failing};
use stored::clauses::Role;
use stored::layout::LEAST_WORDS;
use stored::masks::reach_table;
use stored::refusal::Refusal;
use stored::sheet::{clause_part, node_part, read_sheet};
use tables::fill::lay_first;
use tables::words::clear;
use traces::trace::{columns, read_trace};

// A clause's number and its three cycles.
#[derive(Clone, Copy)]
pub struct Place {
    pub clause: usize,
    pub i: usize,
    pub j: usize,
    pub k: usize,
}

// What a verdict says of the requirement.
#[derive(Clone, Copy)]
pub enum Finding {
    Excused(usize),
    Broken(Place),
    Holds,
}

// A finding, and beside it a byte with bit k set if clause k is advice and fails.
#[derive(Clone, Copy)]
pub struct Verdict {
    pub finding: Finding,
    pub advice: usize,
}

// The place with a number.
fn place_of(clause: usize, number: usize) -> Place
    ensures { result ≡ place_of clause number }
{
    Place {
        clause,
        i: number / 4096,
        j: number / 64 % 64,
        k: number % 64,
    }
}

// The finding over tables in the words.
fn finding_over(parts: Parts, columns: &mut [u64], words: &mut [u64], rows: &mut [u64]) -> Finding
    requires laid { LaidOver parts (trace_of parts.sizes.cycles columns.old) columns.old words.old }
    requires sounds { Sounds parts.nodes.now parts.sizes.nodes parts.clauses.now parts.sizes.clauses × (length rows.old ≡ 64) }
    ensures { result ≡ told (finding_of (in_order parts.entry.sizes.clauses (clause_at parts.entry.nodes.now parts.entry.clauses.now)) (trace_of parts.entry.sizes.cycles columns.old)) }
{
    let assumption = first_failing(Role::Assumption, parts, columns, words, rows);
    match assumption {
        Some(failing) => Finding::Excused(failing.clause),
        None => {
            let commitment = first_failing(Role::Commitment, parts, columns, words, rows);
            match commitment {
                Some(failing) => Finding::Broken(place_of(failing.clause, failing.place)),
                None => Finding::Holds,
            }
        }
    }
}

// The verdict of accepted parts, and the words cleared.
fn verdict_of(
    clauses: &[u8],
    sizes: Sizes,
    nodes: &[u8],
    columns: &mut [u64],
    words: &mut [u64],
) -> Verdict
    requires given { Given nodes.now sizes.nodes sizes.cycles columns.old words.old }
    requires sounds { Sounds nodes.now sizes.nodes clauses.now sizes.clauses }
    ensures value { result ≡ told_whole (verdict (in_order sizes.clauses (clause_at nodes.now clauses.now)) (trace_of sizes.cycles columns.old)) }
    ensures words_after { words.new ≡ replicate (length words.old) 0 }
{
    let count = sizes.nodes;
    let reach = reach_table(nodes, count);
    let mut rows = [0u64; 64];
    lay_first(nodes, count, sizes.cycles, [0; 3], columns, words);
    let parts = Parts {
        nodes,
        reach: &reach,
        clauses,
        sizes,
    };
    let advice = failing_advice(parts, columns, words, &mut rows);
    let finding = finding_over(parts, columns, words, &mut rows);
    clear(words);
    Verdict { finding, advice }
}

// The verdict of a sheet on a trace. The lent words are all zero afterwards, or as they were where it is refused.
pub fn check(sheet: &[u8], trace: &[u8], words: &mut [u64]) -> Result<Verdict, Refusal>
    ensures value { result ≡ check_answer sheet.now trace.now words.old }
    ensures words_after { words.new ≡ words_after (check_refusal sheet.now trace.now words.old) words.old }
{
    let h = read_sheet(sheet)?;
    let n = read_trace(trace, h.signals)?;
    if words.len() < LEAST_WORDS {
        return Err(Refusal::FewWords);
    }
    let nodes = node_part(sheet, h);
    let clauses = clause_part(sheet, h);
    let sizes = Sizes {
        nodes: h.nodes,
        clauses: h.clauses,
        cycles: n,
    };
    let mut columns = columns(trace, h.signals, n);
    Ok(verdict_of(clauses, sizes, nodes, &mut columns, words))
}
