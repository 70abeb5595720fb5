// The check and the translator together.
#![tactic(auto)]

ghost use Rattle.std.specs.Prelude.{◌≡◌, length};
ghost use Rattle.checker.specs.Check.{check_answer, check_refusal};
ghost use Rattle.checker.specs.Table.{words_after};
ghost use Rattle.translator.specs.Translated.{Translated};
ghost use Rattle.sheets.specs.Claim.{Joint};

use checker::check::{Verdict, check};
use stored::refusal::Refusal;
use translator::translate;

// What the translator and the check answered.
#[derive(Drop)]
pub struct Both {
    pub formula: Result<usize, Refusal>,
    pub verdict: Result<Verdict, Refusal>,
}

// Translates a sheet into the lent bytes and checks it on a trace. That the two never part is the last promise.
pub fn translate_and_check(sheet: &[u8], trace: &[u8], out: &mut [u8], words: &mut [u64]) -> Both
    ensures translated { Translated sheet.now out.old out.new result.formula }
    ensures verdict_value { result.verdict ≡ check_answer sheet.now trace.now words.old }
    ensures words_after { words.new ≡ words_after (check_refusal sheet.now trace.now words.old) words.old }
    ensures joint { Joint sheet.now out.new result.formula (length out.old) trace.now words.old result.verdict }
{
    let formula = translate(sheet, out);
    let verdict = check(sheet, trace, words);
    Both { formula, verdict }
}
