// What the check does for one clause.
ghost use Rattle.std.specs.Prelude.{◌≡◌, ◌≤◌};
ghost use Rattle.places.specs.Task.{task_over, task_of};

use stored::StoredClause;
use stored::clauses::ClauseType;

// The nodes of the part that a clause starts from, of Ξ's part and of the part that answers, each with a mask of those of its names
// that no part before it lists; and the names that are quantified universally.
#[derive(Clone, Copy)]
pub struct Task {
    pub clause_type: ClauseType,
    pub premise: usize,
    pub premises: usize,
    pub third: usize,
    pub thirds: usize,
    pub reply: usize,
    pub replies: usize,
    pub quantified: usize,
}

// A part of a clause: its root, and the mask of those of its names that are asked inside.
#[derive(Clone, Copy)]
struct Part {
    root: usize,
    names: usize,
}

// The task over three parts. A name that is quantified universally stands where it stands, so the answer isn't asked to hold it.
fn task_over(
    clause_type: ClauseType,
    premise: Part,
    third: Part,
    reply: Part,
    quantified: usize,
) -> Task
    ensures { result ≡ task_over clause_type premise third reply quantified }
{
    Task {
        clause_type,
        premise: premise.root,
        premises: premise.names,
        third: third.root,
        thirds: third.names,
        reply: reply.root,
        replies: reply.names & !quantified,
        quantified,
    }
}

// A type without Ξ's part takes the first part there: it says nothing.
pub fn task_of(d: StoredClause) -> Task
    requires { (1 ≤ d.clause_type) × (d.clause_type ≤ 6) }
    ensures { result ≡ task_of d }
{
    let one = Part {
        root: d.root1,
        names: d.mask1,
    };
    let two = Part {
        root: d.root2,
        names: d.mask2,
    };
    let three = Part {
        root: d.root3,
        names: d.mask3 & !d.mask1,
    };
    let both = d.mask1 | d.mask3;
    match ClauseType::from(d.clause_type) {
        ClauseType::Pref => task_over(ClauseType::Pref, one, one, one, 0),
        ClauseType::Init => task_over(ClauseType::Init, two, one, one, d.mask2),
        ClauseType::Anti => task_over(ClauseType::Anti, one, one, one, d.mask1),
        ClauseType::Implies => task_over(ClauseType::Implies, one, one, two, d.mask1),
        ClauseType::Follows => task_over(ClauseType::Follows, one, three, two, both),
        ClauseType::Triggers => task_over(ClauseType::Triggers, one, three, two, both),
    }
}
