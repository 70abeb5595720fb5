// The translator: writes the formula of a sheet's requirement as a kind 2 sheet.
#![tactic(auto)]

ghost use Rattle.std.specs.Prelude.{◌≡◌, ◌≤◌, length};
ghost use Rattle.stored.specs.Layout.{least_output};
ghost use Rattle.stored.specs.Sheet.{sheet_answer};
ghost use Rattle.translator.specs.Draft.{DraftOf};
ghost use Rattle.translator.specs.Translated.{Translated};

use clauses::requirement;
use emission::shared;
use pruning::keep;
use stored::refusal::Refusal;
use stored::{Header, layout, sheet, writer};

// The formula of a sheet with all that it may need, used or not; gives its root, the last node.
fn put_draft(draft: &mut [u8], sheet: &[u8], h: Header) -> usize
    requires { (sheet_answer sheet.now ≡ Ok h) × (least_output ≤ length draft.old) }
    ensures { DraftOf sheet.now draft.new result }
{
    let nodes = sheet::node_part(sheet, h);
    let clauses = sheet::clause_part(sheet, h);
    let m = h.names;
    writer::put_header(draft, layout::EMITTED, h.signals, m, 0, 0);
    shared::put_shared(draft, m);
    requirement::put_requirement(draft, nodes, h.nodes, clauses, h.clauses)
}

// Writes the formula of a sheet as a kind 2 sheet into the lent bytes and gives its length; or the lowest of the refusals 1 to 9 and 14.
// Only nodes that its root reaches are written. The draft stands in bytes of its own: those lent past the formula keep their values.
pub fn translate(sheet: &[u8], out: &mut [u8]) -> Result<usize, Refusal>
    ensures { Translated sheet.now out.old out.new result }
{
    let h = sheet::read_sheet(sheet)?;
    if out.len() < layout::LEAST_OUTPUT {
        return Err(Refusal::ShortOutput);
    }
    let mut draft = [0u8; layout::LEAST_OUTPUT];
    let root = put_draft(&mut draft, sheet, h);
    writer::put_header(out, layout::EMITTED, h.signals, h.names, 0, 0);
    let last = keep::put_pruned(out, &draft, root);
    Ok(layout::nodes_end(last + 1))
}
