// The check, the table, the translator, the reader of typed sheets and the board for programs in Rust and C: over numbers, arrays and slices
// only, and with nothing to ask of the caller.
#![tactic(auto)]

pub mod boards;

ghost use Rattle.std.specs.Prelude.{◌≡◌, ◌*◌, ◌≤◌, ◌<◌, length, IfOk};
ghost use Rattle.stored.specs.Refusal.{number_of, answer_number};
ghost use Rattle.stored.specs.Sheet.{header_of, sheet_refusal};
ghost use Rattle.traces.specs.Trace.{trace_refusal};
ghost use Rattle.checker.specs.Check.{check_answer, check_refusal};
ghost use Rattle.checker.specs.Table.{or_else, table_words, words_after};
ghost use Rattle.translator.specs.Translated.{Translated};
ghost use Rattle.text.specs.Text.{ReadText};
ghost use Rattle.checker.specs.Small.{SmallPlace, SmallFinding, SmallVerdict};
ghost use Rattle.exports.specs.Packed.{packed_place, packed_finding, findings, packed, unpacked, packed_writing, unpacked_writing, SmallWriting, packed_table, rows_refusal, rows_of, rows_after};

use checker::check::{Finding, Place, Verdict, check};
use checker::table::table;
use stored::refusal::Refusal;
use text::read::read_text;
use translator::translate;

// How an answer is packed belongs to the interface for C (specs/Packed.antt), so it is said by functions here: a `From` would make these
// numbers the numbers of `checker`'s types.

// The numbers of a finding are below it.
const FINDINGS: u64 = 4294967296;

fn packed_place(place: Place) -> u64
    requires { SmallPlace place }
    ensures { result ≡ packed_place place }
{
    (place.clause as u64) * 262144
        + (place.i as u64) * 4096
        + (place.j as u64) * 64
        + (place.k as u64)
}

// A finding as its tag and 256 times its value.
fn packed_finding(finding: Finding) -> u64
    requires { SmallFinding finding }
    ensures { (result ≡ packed_finding finding) × (result < findings) }
{
    match finding {
        Finding::Excused(clause) => 1 + (clause as u64) * 256,
        Finding::Broken(place) => 2 + packed_place(place) * 256,
        Finding::Holds => 3,
    }
}

// A finding in the lower half of a number, and the advice in the upper.
fn packed_verdict(verdict: Verdict) -> u64
    requires { SmallVerdict verdict }
    ensures { result ≡ packed (Ok verdict) }
{
    let finding = verdict.finding;
    packed_finding(finding) + (verdict.advice as u64) * FINDINGS
}

// 256 times a refusal's number.
fn packed_refusal(refusal: Refusal) -> u64
    ensures { result ≡ number_of refusal * 256 }
{
    (refusal.number() as u64) * 256
}

// The check's answer: its verdict, or 256 times the refusal's number.
fn packed_answer(answer: Result<Verdict, Refusal>) -> u64
    requires { IfOk answer SmallVerdict }
    ensures { result ≡ packed answer }
{
    match answer {
        Ok(verdict) => packed_verdict(verdict),
        Err(refusal) => packed_refusal(refusal),
    }
}

// The verdict of a sheet on a trace: 256 times the refusal's number, 1 + 256 times the clause where it is EXCUSED,
// 2 + 256 times the place where it is BROKEN, clause * 262144 + i * 4096 + j * 64 + k, and 3 where it HOLDS; the upper half of a verdict's
// number is its advice, with bit k set if clause k is advice and fails.
// The lent words are all zero afterwards, or as they were where a refusal's number is the answer.
#[unsafe(no_mangle)]
pub extern "C" fn fasunqir_check(sheet: &[u8], trace: &[u8], words: &mut [u64]) -> u64
    ensures value { result ≡ packed (check_answer sheet.now trace.now words.old) }
    ensures result_value { unpacked result ≡ check_answer sheet.now trace.now words.old }
    ensures words_after { words.new ≡ words_after (check_refusal sheet.now trace.now words.old) words.old }
{
    let answer = check(sheet, trace, words);
    packed_answer(answer)
}

// The answer of an operation that writes a sheet as its tag and 256 times its value.
fn packed_writing(answer: Result<usize, Refusal>) -> u64
    requires { SmallWriting answer }
    ensures { result ≡ packed_writing answer }
{
    match answer {
        Ok(size) => 4 + (size as u64) * 256,
        Err(refusal) => packed_refusal(refusal),
    }
}

// Writes the formula of a sheet into the lent bytes: 4 + 256 times the length of what is written, or 256 times the refusal's number.
#[unsafe(no_mangle)]
pub extern "C" fn fasunqir_translate(sheet: &[u8], out: &mut [u8]) -> u64
    ensures value { result ≡ packed_writing (unpacked_writing result) }
    ensures translated { Translated sheet.now out.old out.new (unpacked_writing result) }
{
    let answer = translate(sheet, out);
    packed_writing(answer)
}

// Reads a typed sheet and writes it as a stored sheet to the front of the lent bytes: 4 + 256 times its length, or 256 times the refusal's
// number.
#[unsafe(no_mangle)]
pub extern "C" fn fasunqir_read_text(text: &[u8], out: &mut [u8]) -> u64
    ensures value { result ≡ packed_writing (unpacked_writing result) }
    ensures read_text { ReadText text.now out.old out.new (unpacked_writing result) }
{
    let answer = read_text(text, out);
    packed_writing(answer)
}

// The table's answer as its tag and 256 times its value; where there is no refusal its rows go over the first 64 of the lent ones.
fn put_answer(table: Result<[u64; 64], Refusal>, rows: &mut [u64]) -> u64
    requires { 64 ≤ length rows.old }
    ensures value { result ≡ packed_table (answer_number table) }
    ensures rows_after { rows.new ≡ rows_after (answer_number table) (table_words table) rows.old }
{
    match table {
        Ok(from) => {
            rows[..64].copy_from_slice(&from);
            4
        }
        Err(refusal) => packed_refusal(refusal),
    }
}

// 256 times the refusal's number where too little is lent: the table in one word is always refused, by 15 at the latest.
fn refused_short(sheet: &[u8], trace: &[u8]) -> u64
    ensures { result ≡ or_else (sheet_refusal sheet.now) (or_else (trace_refusal (header_of sheet.now).signals trace.now) 15) * 256 }
{
    let mut few = [0u64; 1];
    packed_refusal(table(sheet, trace, 0, 0, 0, 0, &mut few).unwrap_err())
}

// The table of a formula node of a sheet over a trace, names 0, 1 and 2 on cycles p0, p1 and p2 and names from m up ignored:
// 4 with its 64 rows written over the first 64 of the lent ones, or 256 times the refusal's number. Fewer than 64 rows are
// refused by 15, as fewer than 4,096 words are. The lent words are all zero afterwards; they and the rows are as they were
// where a refusal's number is the answer.
#[unsafe(no_mangle)]
pub extern "C" fn fasunqir_table(
    sheet: &[u8],
    trace: &[u8],
    node: usize,
    p0: usize,
    p1: usize,
    p2: usize,
    words: &mut [u64],
    rows: &mut [u64],
) -> u64
    ensures value { result ≡ packed_table (rows_refusal sheet.now trace.now node p0 p1 p2 words.old rows.old) }
    ensures words_after { words.new ≡ words_after (rows_refusal sheet.now trace.now node p0 p1 p2 words.old rows.old) words.old }
    ensures rows_after { rows.new ≡ rows_after (rows_refusal sheet.now trace.now node p0 p1 p2 words.old rows.old) (rows_of sheet.now trace.now node p0 p1 p2) rows.old }
{
    if rows.len() < 64 {
        return refused_short(sheet, trace);
    }
    let answer = table(sheet, trace, node, p0, p1, p2, words);
    put_answer(answer, rows)
}
