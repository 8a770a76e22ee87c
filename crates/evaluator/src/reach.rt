// Reach: what the rows held decide, whatever comes after them. Lines are gone through from the lowest up.
use crate::grid::Grid;
use crate::rules::{Kind, Moment, Rule, gap};
use std::alloc::{AllocError, Global};

// Which lines are in reach at which rows.
#[derive(Drop)]
pub struct Reach {
    reached: Grid<bool>,
}

impl Reach {
    // Whether a line is in reach at a row.
    pub fn at(&self, line: usize, row: usize) -> bool {
        self.reached.at(line, row).is_some_and(|reached| *reached)
    }

    fn both_at(&self, rule: &Rule, row: usize) -> bool {
        self.at(rule.left, row) && self.at(rule.right, row)
    }

    // A row later than the window's end is there, and both operands are in reach at every row up to that end.
    fn until(&self, rule: &Rule, rows: &[Moment], row: usize) -> bool {
        let ends_after = |k: usize| gap(rows, row, k).map(|gap| rule.ends_after(gap));
        ends_after(rows.len().saturating_sub(1)) == Some(false)
            && (row..rows.len())
                .filter(|k| ends_after(*k) == Some(true))
                .all(|k| self.both_at(rule, k))
    }

    fn decides(&self, rule: &Rule, rows: &[Moment], row: usize) -> bool {
        match rule.kind {
            Kind::Mark => true,
            Kind::Not => self.at(rule.left, row),
            Kind::And | Kind::Or => self.both_at(rule, row),
            Kind::Previous => row
                .checked_sub(1)
                .is_none_or(|before| self.at(rule.left, before)),
            Kind::Next => self.at(rule.left, row.saturating_add(1)),
            Kind::Since => (0..=row).all(|k| self.both_at(rule, k)),
            Kind::Until => self.until(rule, rows, row),
        }
    }

    // Works out the reach of every line at every row.
    pub fn of(heap: Global, rules: &[Rule], rows: &[Moment]) -> Result<Reach, AllocError> {
        let mut known = Reach {
            reached: Grid::new(heap),
        };
        for rule in rules {
            let line = (0..rows.len())
                .map(|row| known.decides(rule, rows, row))
                .collect(heap)?;
            known.reached.push(line)?;
        }
        Ok(known)
    }
}
