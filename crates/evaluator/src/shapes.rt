// The 26 proof rules as a table: for which lines each is, what it rules, and which children it may have.
use crate::rules::{Kind, Side};

// A rule's first child and its other children, where there are such, and how many there may be in all.
#[derive(Clone, Copy)]
pub struct Shape {
    pub kind: Kind,
    pub held: bool,
    pub first: Option<Side>,
    pub others: Option<Side>,
    pub least: usize,
    pub most: Option<usize>,
}

const NONE: Option<Side> = None;

const LEFT: Option<Side> = Some(Side::Left);

const RIGHT: Option<Side> = Some(Side::Right);

// Kind, whether it rules held, first child, other children, fewest and most children: one entry a rule, from rule 1.
// The entries are tuples: a constant calls no function, and 26 structs would name six fields each.
const TABLE: [(Kind, bool, Option<Side>, Option<Side>, usize, Option<usize>); 26] = [
    (Kind::Mark, true, NONE, NONE, 0, Some(0)),
    (Kind::Mark, false, NONE, NONE, 0, Some(0)),
    (Kind::Not, true, LEFT, NONE, 1, Some(1)),
    (Kind::Not, false, LEFT, NONE, 1, Some(1)),
    (Kind::And, true, LEFT, RIGHT, 2, Some(2)),
    (Kind::And, false, LEFT, NONE, 1, Some(1)),
    (Kind::And, false, RIGHT, NONE, 1, Some(1)),
    (Kind::Or, true, LEFT, NONE, 1, Some(1)),
    (Kind::Or, true, RIGHT, NONE, 1, Some(1)),
    (Kind::Or, false, LEFT, RIGHT, 2, Some(2)),
    (Kind::Previous, true, LEFT, NONE, 1, Some(1)),
    (Kind::Previous, false, LEFT, NONE, 1, Some(1)),
    (Kind::Previous, false, NONE, NONE, 0, Some(0)),
    (Kind::Previous, false, NONE, NONE, 0, Some(0)),
    (Kind::Previous, false, NONE, NONE, 0, Some(0)),
    (Kind::Next, true, LEFT, NONE, 1, Some(1)),
    (Kind::Next, false, LEFT, NONE, 1, Some(1)),
    (Kind::Next, false, NONE, NONE, 0, Some(0)),
    (Kind::Next, false, NONE, NONE, 0, Some(0)),
    (Kind::Since, true, RIGHT, LEFT, 1, None),
    (Kind::Since, false, LEFT, RIGHT, 1, None),
    (Kind::Since, false, RIGHT, RIGHT, 0, None),
    (Kind::Since, false, NONE, NONE, 0, Some(0)),
    (Kind::Until, true, RIGHT, LEFT, 1, None),
    (Kind::Until, false, LEFT, RIGHT, 1, None),
    (Kind::Until, false, RIGHT, RIGHT, 0, None),
];

impl Shape {
    // The shape of a rule's number; no rule is numbered 0 or above 26.
    pub fn of(rule: usize) -> Option<Shape> {
        let (kind, held, first, others, least, most) = *TABLE.get(rule.checked_sub(1)?)?;
        Some(Shape {
            kind,
            held,
            first,
            others,
            least,
            most,
        })
    }

    // Whether there may be so many children.
    pub fn takes(&self, count: usize) -> bool {
        self.least <= count && self.most.is_none_or(|most| count <= most)
    }

    // Whether the children are held, or not held.
    pub fn children_held(&self) -> bool {
        self.held != (self.kind == Kind::Not)
    }
}
