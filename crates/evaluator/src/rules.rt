// Rule lines, rows and claims as the evaluator has them.

#[derive(Clone, Copy, Debug, PartialEq)]
pub enum Kind {
    Mark,
    Not,
    And,
    Or,
    Previous,
    Next,
    Since,
    Until,
}

// One of a line's two operands.
#[derive(Clone, Copy)]
pub enum Side {
    Left,
    Right,
}

// A rule line; what its kind does not use is not looked at.
#[derive(Clone, Copy, Debug)]
pub struct Rule {
    pub kind: Kind,
    pub left: usize,
    pub right: usize,
    pub from: u64,
    pub to: Option<u64>,
}

// A row: its time, which has no limit, and its marks as bits.
#[derive(Clone, Copy, Debug, Default)]
pub struct Moment {
    pub time: u64,
    pub marks: u32,
}

// A claim: the line is held at the row, or it is not.
#[derive(Clone, Copy, Debug, PartialEq, Eq, PartialOrd, Ord)]
pub struct Statement {
    pub line: usize,
    pub row: usize,
    pub held: bool,
}

impl Kind {
    // How many operands a line of this kind has; a mark has none.
    pub fn operands(self) -> usize {
        match self {
            Kind::Mark => 0,
            Kind::Not | Kind::Previous | Kind::Next => 1,
            Kind::And | Kind::Or | Kind::Since | Kind::Until => 2,
        }
    }

    // Whether a line of this kind has a window.
    pub fn has_window(self) -> bool {
        matches!(
            self,
            Kind::Previous | Kind::Next | Kind::Since | Kind::Until
        )
    }
}

impl From<Kind> for char {
    // The letter of a kind.
    fn from(kind: Kind) -> char {
        match kind {
            Kind::Mark => 'm',
            Kind::Not => 'n',
            Kind::And => 'a',
            Kind::Or => 'o',
            Kind::Previous => 'p',
            Kind::Next => 'x',
            Kind::Since => 's',
            Kind::Until => 'u',
        }
    }
}

impl Rule {
    // The claim that an operand is held at a row, or that it is not.
    pub fn child(&self, side: Side, row: usize, held: bool) -> Statement {
        let line = match side {
            Side::Left => self.left,
            Side::Right => self.right,
        };
        Statement { line, row, held }
    }

    // Whether a difference of times is not past the window's end.
    pub fn ends_after(&self, gap: u64) -> bool {
        self.to.is_none_or(|to| gap <= to)
    }

    // Whether a difference of times is inside the window.
    pub fn admits(&self, gap: u64) -> bool {
        self.from <= gap && self.ends_after(gap)
    }
}

impl Moment {
    // Whether a mark stands in the row.
    pub fn has(&self, mark: usize) -> bool {
        mark < 32 && (self.marks >> mark) & 1 == 1
    }
}

// How much later one row is than an earlier one.
pub fn gap(rows: &[Moment], early: usize, late: usize) -> Option<u64> {
    let early = rows.get(early)?;
    let late = rows.get(late)?;
    late.time.checked_sub(early.time)
}
