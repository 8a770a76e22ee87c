// The ways of the kinds that look at one row: their own, the one before or the one after.
use crate::rules::{Side, gap};
use crate::ways::{Spot, Ways};
use std::alloc::AllocError;

impl Spot<'_> {
    pub(crate) fn mark(&self, ways: &mut Ways) -> Result<(), AllocError> {
        let (row, mark) = (self.row, self.rule.left);
        let stands = self.rows.get(row).is_some_and(|row| row.has(mark));
        self.leaf(ways, 1, stands)?;
        self.leaf(ways, 2, !stands)
    }

    pub(crate) fn not(&self, ways: &mut Ways) -> Result<(), AllocError> {
        let left = |held| self.rule.child(Side::Left, self.row, held);
        self.over(ways, 3, &[left(false)])?;
        self.over(ways, 4, &[left(true)])
    }

    pub(crate) fn and(&self, ways: &mut Ways) -> Result<(), AllocError> {
        let left = |held| self.rule.child(Side::Left, self.row, held);
        let right = |held| self.rule.child(Side::Right, self.row, held);
        self.over(ways, 5, &[left(true), right(true)])?;
        self.over(ways, 6, &[left(false)])?;
        self.over(ways, 7, &[right(false)])
    }

    pub(crate) fn or(&self, ways: &mut Ways) -> Result<(), AllocError> {
        let left = |held| self.rule.child(Side::Left, self.row, held);
        let right = |held| self.rule.child(Side::Right, self.row, held);
        self.over(ways, 8, &[left(true)])?;
        self.over(ways, 9, &[right(true)])?;
        self.over(ways, 10, &[left(false), right(false)])
    }

    // The ways from a neighbour's row: held inside the window, broken, broken before the window and broken after it.
    fn neighbour(
        &self,
        ways: &mut Ways,
        row: usize,
        gap: u64,
        numbers: [usize; 4],
    ) -> Result<(), AllocError> {
        let [held, broken, early, late] = numbers;
        let rule = self.rule;
        let left = |held| rule.child(Side::Left, row, held);
        if self.lists(rule.admits(gap)) {
            self.over(ways, held, &[left(true)])?;
        }
        self.over(ways, broken, &[left(false)])?;
        self.leaf(ways, early, gap < rule.from)?;
        self.leaf(ways, late, !rule.ends_after(gap))
    }

    pub(crate) fn previous(&self, ways: &mut Ways) -> Result<(), AllocError> {
        if let Some(before) = self.row.checked_sub(1)
            && let Some(gap) = gap(self.rows, before, self.row)
        {
            self.neighbour(ways, before, gap, [11, 12, 13, 14])?;
        }
        self.leaf(ways, 15, self.row == 0)
    }

    pub(crate) fn next(&self, ways: &mut Ways) -> Result<(), AllocError> {
        let after = self.row.saturating_add(1);
        match gap(self.rows, self.row, after) {
            Some(gap) => self.neighbour(ways, after, gap, [16, 17, 18, 19]),
            None => Ok(()),
        }
    }
}
