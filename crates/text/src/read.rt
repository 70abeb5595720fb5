// Reads a typed sheet into a stored one.
ghost use Rattle.std.specs.Prelude.{◌≡◌, ◌≤◌, ◌*◌, length, replicate};
ghost use Rattle.stored.specs.Layout.{node_size, clause_size, clauses_end, most_nodes, most_clauses};
ghost use Rattle.stored.specs.Refusal.{answered};
ghost use Rattle.stored.specs.Sheet.{sheet_answer};
ghost use Rattle.typed.specs.Draft.{sheet_bytes};
ghost use Rattle.propositions.specs.Nodes.{so_far};
ghost use Rattle.text.specs.Parts.{clauses_so_far, draft_refusal};
ghost use Rattle.text.specs.Text.{ReadText};

use crate::clause::{CLAUSE_BYTES, Clauses};
use crate::sheet::{GotSheet, sheet};
use lexer::brackets::too_deep;
use lexer::ends_line;
use propositions::nodes::{NODE_BYTES, Nodes};
use stored::refusal::Refusal;
use stored::sheet::read_sheet;
use stored::{Header, layout};
use typed::draft::assemble;

// The bytes of a sheet that has the most nodes and the most clauses.
const SHEET_BYTES: usize = layout::NODES_START + NODE_BYTES + CLAUSE_BYTES;

fn zeros<const N: usize>() -> [u8; N]
    ensures { result ≡ replicate N 0 }
{
    [0; N]
}

// Reads the sheet of what was read.
fn read_draft(said: GotSheet, nodes: &Nodes, clauses: &Clauses) -> Result<Header, Refusal>
    requires { (nodes.now.count ≤ most_nodes) × (clauses.now.count ≤ most_clauses) }
    ensures { result ≡ sheet_answer (sheet_bytes said.signals said.names (so_far nodes.now) (clauses_so_far clauses.now)) }
{
    let mut bytes: [u8; SHEET_BYTES] = zeros();
    let size = assemble(
        &mut bytes,
        said.signals,
        said.names,
        &nodes.bytes,
        nodes.count,
        &clauses.bytes,
        clauses.count,
    );
    read_sheet(&bytes[0..size])
}

// Refuses more than 64 nodes or 8 clauses, then what 1 to 9 refuse, then too few lent bytes.
fn judge(said: GotSheet, nodes: &Nodes, clauses: &Clauses, lent: usize) -> Result<(), Refusal>
    ensures { result ≡ answered (draft_refusal said.signals said.names (so_far nodes.now) (clauses_so_far clauses.now) lent) tt }
{
    if layout::MOST_NODES < nodes.count {
        return Err(Refusal::TooLarge);
    }
    if layout::MOST_CLAUSES < clauses.count {
        return Err(Refusal::TooLarge);
    }
    read_draft(said, nodes, clauses)?;
    if lent < layout::LEAST_OUTPUT {
        return Err(Refusal::ShortOutput);
    }
    Ok(())
}

// Reads a typed sheet, writes it as a stored sheet to the front of the lent bytes and gives its length, or the first refusal of 18, 19,
// 20, 1 to 9 and 14; refused, the lent bytes are as before.
pub fn read_text(text: &[u8], out: &mut [u8]) -> Result<usize, Refusal>
    ensures { ReadText text.now out.old out.new result }
{
    if too_deep(text) {
        return Err(Refusal::TooDeep);
    }
    if !ends_line(text) {
        return Err(Refusal::OutsideGrammar);
    }
    let mut nodes = Nodes {
        bytes: zeros(),
        count: 0,
    };
    let mut clauses = Clauses {
        bytes: zeros(),
        count: 0,
    };
    let Some(said) = sheet(text, &mut nodes, &mut clauses) else {
        return Err(Refusal::OutsideGrammar);
    };
    judge(said, &nodes, &clauses, out.len())?;
    Ok(assemble(
        out,
        said.signals,
        said.names,
        &nodes.bytes,
        nodes.count,
        &clauses.bytes,
        clauses.count,
    ))
}
