// A clause: its type's word and its parts in round brackets.
ghost use Rattle.std.specs.Prelude.{◌≡◌, ◌<◌};
ghost use Rattle.grammar.specs.Reader.{a_clause};
ghost use Rattle.typed.specs.Draft.{put_typed};
ghost use Rattle.propositions.specs.Reads.{Ready};
ghost use Rattle.text.specs.Parts.{ClausePuttable, ClausePut, with_first, has_clause, PartsRead, LineReady, LineRead};

use crate::part::{GotPart, part};
use propositions::leaf;
use propositions::nodes::Nodes;
use propositions::words::{CLOSE_ROUND, COMMA, OPEN_ROUND, PREF_WORD, TRIGGERS_WORD};
use stored::clauses::parts_used;
use stored::{StoredClause, layout};
use typed::draft;

// The bytes of the most clauses.
pub const CLAUSE_BYTES: usize = layout::CLAUSE_SIZE * layout::MOST_CLAUSES;

// The bytes of the clauses of what was read, and how many there are, also where they are too many for the bytes. Of nodes there are `Nodes`:
// a type of both would have neither's `put`, which is all that they do.
#[derive(Drop)]
pub struct Clauses {
    pub bytes: [u8; CLAUSE_BYTES],
    pub count: usize,
}

impl Clauses {
    // One clause more. It is written while there are fewer than 8, and counted in any case.
    fn put(&mut self, x: StoredClause)
        requires { ClausePuttable x self.old }
        ensures { ClausePut x self.old self.new }
    {
        self.count = draft::put_clause(&mut self.bytes, self.count, x);
    }
}

// The place after parts that were read, and the fields of a clause of these parts.
#[derive(Drop)]
pub struct GotParts {
    pub at: usize,
    pub fields: StoredClause,
}

// The fields of a clause of this part and then those of `rest`, of which there are two at most.
fn with_first(first: GotPart, rest: GotParts) -> GotParts
    ensures { result ≡ with_first first rest }
{
    let others = rest.fields;
    let fields = StoredClause {
        root1: first.root,
        root2: others.root1,
        root3: others.root2,
        mask1: first.mask,
        mask2: others.mask1,
        mask3: others.mask2,
        ..others
    };
    GotParts { fields, ..rest }
}

// So many parts and one before them, with commas between them.
fn parts(
    text: &[u8],
    at: usize,
    more: usize,
    nodes: &mut Nodes,
    clause_type: usize,
    role: usize,
) -> Option<GotParts>
    requires { Ready text.now at nodes.old × (clause_type < 256) × (role < 256) }
    ensures { PartsRead more 31 clause_type role text.now at nodes.old nodes.new result }
{
    let first = part(text, at, nodes)?;
    if more == 0 {
        let fields = StoredClause {
            clause_type,
            role,
            root1: 0,
            root2: 0,
            root3: 0,
            mask1: 0,
            mask2: 0,
            mask3: 0,
        };
        let none = GotParts {
            at: first.at,
            fields,
        };
        return Some(with_first(first, none));
    }
    let comma = leaf::sign(text, first.at, COMMA)?;
    let rest = parts(text, comma, more - 1, nodes, clause_type, role)?;
    Some(with_first(first, rest))
}

// A clause of this role, put after the others.
pub fn clause(
    text: &[u8],
    at: usize,
    role: usize,
    nodes: &mut Nodes,
    clauses: &mut Clauses,
) -> Option<usize>
    requires { LineReady text.now at nodes.old clauses.old × (role < 256) }
    ensures { LineRead a_clause has_clause (put_typed role) text.now at nodes.old clauses.old
        nodes.new clauses.new result }
{
    let word = leaf::word(text, at, PREF_WORD, TRIGGERS_WORD)?;
    let clause_type = word.value + 1;
    let bracket = leaf::sign(text, word.at, OPEN_ROUND)?;
    let more = parts_used(clause_type) - 1;
    let said = parts(text, bracket, more, nodes, clause_type, role)?;
    let close = leaf::sign(text, said.at, CLOSE_ROUND)?;
    clauses.put(said.fields);
    Some(close)
}
