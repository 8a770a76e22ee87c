// What a call tells, in the evaluator's own words.
use crate::rules::Statement;

// What a call answers.
#[derive(Clone, Copy, Debug, PartialEq)]
pub enum Answer {
    // The call did what was asked, and has nothing to tell.
    Done,
    // A certificate of this claim.
    Proved(Statement),
    // The line is ruled, by so many nodes.
    Ruled { held: bool, nodes: u64 },
    // What a book shows: a ruling, or none.
    Shows(Option<bool>),
}

// The number of the first question answered no, and the node told with it: 0 where none is. The numbers are what is compared.
#[derive(Clone, Copy, Debug, PartialEq)]
pub struct Refused {
    pub question: u8,
    pub node: usize,
}

pub type Told = Result<Answer, Refused>;

// The questions by their numbers: first those that entering a line asks.
#[derive(Clone, Copy, Debug, PartialEq)]
pub enum Question {
    DraftHasRoom = 1,
    KindIsKnown,
    MarkIsSmall,
    OperandsAreEarlier,
    WindowIsWhole,
    UntilEnds,
    // Those of Add.
    TimeDoesNotFall,
    LogHasRoom,
    // Those of Check, which are asked of the certificate, of each node and at the end.
    NodesAreWhole = 11,
    NodesAreFew,
    StackHasRoom,
    NodeHasLine,
    RuleIsOfItsKind,
    NodeHasRow,
    CountIsRight,
    ChildrenAreRight,
    ConditionIsMet,
    OneIsLeft,
    // Those of Settle; Show asks the first two.
    LineIsThere,
    RowIsThere,
    CellsAreEnough,
    IsRuled,
    SizeIsSmall,
    OutputHasRoom,
}

impl Question {
    // Whether the question is answered yes, and else itself.
    pub fn ask(self, yes: bool) -> Result<(), Question> {
        if yes { Ok(()) } else { Err(self) }
    }

    // The refusal that tells this node.
    pub fn at(self, node: usize) -> Refused {
        Refused {
            question: self as u8,
            node,
        }
    }
}

impl Refused {
    // Whether it is by one of these questions, and tells no node.
    pub fn is_by(self, questions: &[Question]) -> bool {
        questions.iter().any(|question| self == (*question).into())
    }
}

impl From<Question> for Refused {
    fn from(question: Question) -> Refused {
        question.at(0)
    }
}

// The claim that an answer of Settle at this line and row makes.
pub fn claim_at(told: Told, line: usize, row: usize) -> Option<Statement> {
    match told {
        Ok(Answer::Ruled { held, .. }) => Some(Statement { line, row, held }),
        _ => None,
    }
}
