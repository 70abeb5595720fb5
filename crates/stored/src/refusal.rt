// Why an operation refuses: the refusals of document 01 and of the change requests, each with its number.
ghost use Rattle.std.specs.Prelude.{◌≡◌, ◌≤◌, Some};
ghost use Rattle.stored.specs.Refusal.{last_number, number_of, reason_of};

use std::error::Error;
use std::fmt;

// A refusal's number is its discriminant.
#[derive(Clone, Copy, Debug, PartialEq, Eq)]
pub enum Refusal {
    // Of a sheet.
    SheetNotFramed = 1,
    UnknownSheetVersion = 2,
    NotARequirement = 3,
    CountOutOfRange = 4,
    WrongSheetLength = 5,
    InvalidNode = 6,
    InvalidOperand = 7,
    InvalidClause = 8,
    UnlistedName = 9,
    // Of a trace.
    TraceNotFramed = 10,
    UnknownTraceVersion = 11,
    OtherSignals = 12,
    InvalidCycles = 13,
    // Of what is lent.
    ShortOutput = 14,
    FewWords = 15,
    // Of what a table is asked for.
    NotAFormula = 16,
    NameOffTrace = 17,
    // Of a typed sheet.
    TooDeep = 18,
    OutsideGrammar = 19,
    TooLarge = 20,
    // Of a feed.
    InvalidCycle = 21,
    BoardFull = 22,
}

impl Refusal {
    // The number that the papers give it.
    pub fn number(self) -> usize
        ensures value { result ≡ number_of self }
        ensures within { result ≤ last_number }
    {
        self as usize
    }

    // What is printed of it.
    #[tactic(auto, unfolding(crate::specs::Refusal::reason_of))]
    fn reason(self) -> &'static str
        ensures { result.now ≡ reason_of self }
    {
        match self {
            Refusal::SheetNotFramed => "the sheet's length is not that of its length field",
            Refusal::UnknownSheetVersion => "the sheet's version is not 1",
            Refusal::NotARequirement => "the sheet is no requirement",
            Refusal::CountOutOfRange => "a count of the sheet is out of range",
            Refusal::WrongSheetLength => "the sheet's length is not that of its counts",
            Refusal::InvalidNode => "a node has a field out of range",
            Refusal::InvalidOperand => "an operand is no earlier node of the right sort",
            Refusal::InvalidClause => "a clause has a field out of range",
            Refusal::UnlistedName => "a part reaches a name that it doesn't list",
            Refusal::TraceNotFramed => "the trace's length is not that of its length field",
            Refusal::UnknownTraceVersion => "the trace's version is not 1",
            Refusal::OtherSignals => "the trace has other signals than the sheet",
            Refusal::InvalidCycles => "the cycles are not 1 to 64 whole words of the signals",
            Refusal::ShortOutput => "the lent bytes are too few",
            Refusal::FewWords => "the lent words are too few",
            Refusal::NotAFormula => "the node asked for is no formula",
            Refusal::NameOffTrace => "a name is put on no cycle of the trace",
            Refusal::TooDeep => "too many round brackets are open",
            Refusal::OutsideGrammar => "the text is outside the grammar",
            Refusal::TooLarge => "the sheet has too many nodes or clauses",
            Refusal::InvalidCycle => "the cycle has a signal that the sheet hasn't",
            Refusal::BoardFull => "the board has no room for a cycle",
        }
    }
}

impl fmt::Display for Refusal {
    ghost output = { λ refusal. Some (reason_of refusal) };

    fn fmt<W: fmt::Write>(&self, f: &mut fmt::Formatter<W>) -> fmt::Result {
        f.write_str(self.reason())
    }
}

impl Error for Refusal {}
