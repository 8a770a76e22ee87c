// Why a certificate is refused.
mod telling;

// The first question that is answered no; the node is counted from 0.
#[derive(Clone, Copy, Debug, PartialEq, Eq)]
pub enum CheckFault {
    // The bytes are none, or no multiple of six.
    NotWholeNodes,
    // There are more than 4,096 nodes.
    TooLong,
    // The stack has fewer places than there are nodes.
    StackTooShort,
    // The table has no such line.
    NoSuchLine { node: usize },
    // The rule is not one of the line's kind.
    RuleOfOtherKind { node: usize },
    // The log has no such row.
    NoSuchRow { node: usize },
    // The rule takes another number of children, or fewer are waiting.
    WrongCount { node: usize },
    // A child is of another line or ruling than the rule shows.
    WrongChild { node: usize },
    // A child is at another row than the rule shows, or the rule's condition is not met.
    ConditionNotMet { node: usize },
    // After the last node, not exactly one subtree is waiting.
    NotOneLeft { nodes: usize },
}

// A refusal in numbers: the question that is answered no, and the node; 0 before any node, and after the last how many there were.
#[derive(Clone, Copy, Debug, PartialEq, Eq)]
pub struct RefusedAt {
    pub number: u8,
    pub node: usize,
}
