// A sheet: its frame, its counts, and the order of its refusals.
ghost use Rattle.std.specs.Prelude.{◌≡◌, ◌≤◌, length};
ghost use Rattle.stored.specs.Layout.{nodes_start};
ghost use Rattle.stored.specs.Sheet.{header_of, node_part, clause_part, counted, sheet_answer};

use crate::refusal::Refusal;
use crate::{Header, bytes, clauses, layout, nodes};

fn header(sheet: &[u8]) -> Header
    requires { nodes_start ≤ length sheet.now }
    ensures { result ≡ header_of sheet.now }
{
    let signals = bytes::byte(sheet, 4);
    let names = bytes::byte(sheet, 5);
    let nodes = bytes::word(sheet, 6);
    let clauses = bytes::byte(sheet, 8);
    Header {
        signals,
        names,
        nodes,
        clauses,
    }
}

fn counts_ok(h: Header) -> bool
    ensures { result ≡ counted h }
{
    let s = h.signals;
    let m = h.names;
    let n = h.nodes;
    let c = h.clauses;
    let signals = (1 <= s) & (s <= layout::MOST_SIGNALS);
    let names = m <= layout::MOST_NAMES;
    let nodes = (1 <= n) & (n <= layout::MOST_NODES);
    let clauses = (1 <= c) & (c <= layout::MOST_CLAUSES);
    signals & (names & (nodes & clauses))
}

// The header of a sheet, or the refusal with the lowest number from 1 to 9 that applies to it.
pub fn read_sheet(sheet: &[u8]) -> Result<Header, Refusal>
    ensures { result ≡ sheet_answer sheet.now }
{
    if !bytes::is_framed(sheet, layout::NODES_START) {
        return Err(Refusal::SheetNotFramed);
    }
    if bytes::byte(sheet, 2) != 1 {
        return Err(Refusal::UnknownSheetVersion);
    }
    if bytes::byte(sheet, 3) != layout::REQUIREMENT {
        return Err(Refusal::NotARequirement);
    }
    let h = header(sheet);
    if !counts_ok(h) {
        return Err(Refusal::CountOutOfRange);
    }
    let m = h.names;
    let n = h.nodes;
    let c = h.clauses;
    let middle = layout::nodes_end(n);
    let end = layout::clauses_end(n, c);
    if sheet.len() != end {
        return Err(Refusal::WrongSheetLength);
    }
    let node_part = &sheet[layout::NODES_START..middle];
    let clause_part = &sheet[middle..end];
    if !nodes::nodes_ok(node_part, n, h.signals, m) {
        return Err(Refusal::InvalidNode);
    }
    if !nodes::operands_ok(node_part, n) {
        return Err(Refusal::InvalidOperand);
    }
    if !clauses::clauses_ok(node_part, n, clause_part, c) {
        return Err(Refusal::InvalidClause);
    }
    if !clauses::clauses_covered(node_part, n, m, clause_part, c) {
        return Err(Refusal::UnlistedName);
    }
    Ok(h)
}

// The node part of an accepted sheet.
pub fn node_part(sheet: &[u8], h: Header) -> &[u8]
    requires { sheet_answer sheet.now ≡ Ok h }
    ensures { result.now ≡ node_part sheet.now }
{
    let end = layout::nodes_end(h.nodes);
    &sheet[layout::NODES_START..end]
}

// The clause part of an accepted sheet.
pub fn clause_part(sheet: &[u8], h: Header) -> &[u8]
    requires { sheet_answer sheet.now ≡ Ok h }
    ensures { result.now ≡ clause_part sheet.now }
{
    let start = layout::nodes_end(h.nodes);
    let end = layout::clauses_end(h.nodes, h.clauses);
    &sheet[start..end]
}
