// Truth at a row of a continuation, straight from its definition. `None` says that the rows given do not go on for long enough.
use crate::rules::{Kind, Moment, Rule, gap};

// A table, and the rows of a log with those that come after them.
#[derive(Clone, Copy)]
pub struct Course<'a> {
    pub rules: &'a [Rule],
    pub rows: &'a [Moment],
}

fn not(a: Option<bool>) -> Option<bool> {
    a.map(|a| !a)
}

fn both(a: Option<bool>, b: Option<bool>) -> Option<bool> {
    a.zip(b).map(|(a, b)| a && b)
}

impl Course<'_> {
    // Whether the time from one row to another is inside the rule's window.
    fn inside(self, rule: &Rule, early: usize, late: usize) -> Option<bool> {
        gap(self.rows, early, late).map(|gap| rule.admits(gap))
    }

    fn marked(self, row: usize, mark: usize) -> Option<bool> {
        self.rows.get(row).map(|row| row.has(mark))
    }

    // Whether a line is true at a row.
    #[cycle(operand_since_throughout_truth_until)]
    pub fn truth(self, line: usize, row: usize) -> Option<bool> {
        let rule = *self.rules.get(line)?;
        let (left, right) = (rule.left, rule.right);
        match rule.kind {
            Kind::Mark => self.marked(row, left),
            Kind::Not => not(self.operand(left, line, row)),
            Kind::And => {
                both(
                    self.operand(left, line, row),
                    self.operand(right, line, row),
                )
            }
            Kind::Or => not(both(
                not(self.operand(left, line, row)),
                not(self.operand(right, line, row)),
            )),
            Kind::Previous => match row.checked_sub(1) {
                Some(before) => {
                    both(
                        self.inside(&rule, before, row),
                        self.operand(left, line, before),
                    )
                }
                None => Some(false),
            },
            Kind::Next => {
                let after = row.saturating_add(1);
                both(
                    self.inside(&rule, row, after),
                    self.operand(left, line, after),
                )
            }
            Kind::Since => self.since(line, row),
            Kind::Until => self.until(line, row),
        }
    }

    // Whether an operand of a line is true at a row. Operands are earlier lines.
    #[cycle(operand_since_throughout_truth_until)]
    fn operand(self, operand: usize, line: usize, row: usize) -> Option<bool> {
        if operand < line {
            self.truth(operand, row)
        } else {
            None
        }
    }

    // Whether an operand is true at every row from the first to the one before the last.
    // A loop, as in the two below: each turn may end it as unknown, and a closure may call nothing of this cycle.
    #[cycle(operand_since_throughout_truth_until)]
    fn throughout(self, operand: usize, line: usize, first: usize, last: usize) -> Option<bool> {
        for k in first..last {
            if !self.operand(operand, line, k)? {
                return Some(false);
            }
        }
        Some(true)
    }

    // Right is true at some j up to the row, inside the window, and left at every later row up to this one.
    #[cycle(operand_since_throughout_truth_until)]
    fn since(self, line: usize, row: usize) -> Option<bool> {
        let rule = *self.rules.get(line)?;
        for j in 0..=row {
            if self.inside(&rule, j, row)? && self.operand(rule.right, line, j)? {
                let after = row.saturating_add(1);
                if self.throughout(rule.left, line, j.saturating_add(1), after)? {
                    return Some(true);
                }
            }
        }
        Some(false)
    }

    // Right is true at some j from the row on, inside the window, and left at every row before j from this one on.
    #[cycle(operand_since_throughout_truth_until)]
    fn until(self, line: usize, row: usize) -> Option<bool> {
        let rule = *self.rules.get(line)?;
        for j in row..self.rows.len() {
            if !rule.ends_after(gap(self.rows, row, j)?) {
                return Some(false);
            }
            if self.inside(&rule, row, j)?
                && self.operand(rule.right, line, j)?
                && self.throughout(rule.left, line, row, j)?
            {
                return Some(true);
            }
        }
        None
    }
}
