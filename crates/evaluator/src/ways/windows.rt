// The ways of since, over the rows up to the spot's, and of until, over the rows from there on.
use crate::rules::{Side, gap};
use crate::ways::{Spot, Ways};
use std::alloc::AllocError;
use std::iter::once;
use std::ops::Range;

impl Spot<'_> {
    // How far a row is from the spot's, before or after it.
    fn distance(&self, row: usize) -> Option<u64> {
        gap(self.rows, row.min(self.row), row.max(self.row))
    }

    // Whether a row is at least as far off as the window's start.
    fn far_enough(&self, row: usize) -> bool {
        self.distance(row)
            .is_some_and(|distance| self.rule.from <= distance)
    }

    // Whether a row is no further off than the window's end.
    fn near_enough(&self, row: usize) -> bool {
        self.distance(row)
            .is_some_and(|distance| self.rule.ends_after(distance))
    }

    fn inside(&self, row: usize) -> bool {
        self.far_enough(row) && self.near_enough(row)
    }

    // Rules 20 and 24 by j: right held at j, left held at each of the rows between.
    fn held(
        &self,
        ways: &mut Ways,
        rule: usize,
        j: usize,
        between: Range<usize>,
    ) -> Result<(), AllocError> {
        let between = between.map(|k| self.rule.child(Side::Left, k, true));
        let children = once(self.rule.child(Side::Right, j, true)).chain(between);
        ways.children.extend(children)?;
        ways.way(self, rule)
    }

    // Rules 21 and 25 by j: left broken at j, right broken at each of the rows that is far enough.
    fn cut(
        &self,
        ways: &mut Ways,
        rule: usize,
        j: usize,
        rows: Range<usize>,
    ) -> Result<(), AllocError> {
        let broken = rows
            .filter(|k| self.far_enough(*k))
            .map(|k| self.rule.child(Side::Right, k, false));
        let children = once(self.rule.child(Side::Left, j, false)).chain(broken);
        ways.children.extend(children)?;
        ways.way(self, rule)
    }

    // Rules 22 and 26: right broken at each of the rows that is inside the window.
    fn never(&self, ways: &mut Ways, rule: usize, rows: Range<usize>) -> Result<(), AllocError> {
        let children = rows
            .filter(|k| self.inside(*k))
            .map(|k| self.rule.child(Side::Right, k, false));
        ways.children.extend(children)?;
        ways.way(self, rule)
    }

    pub(crate) fn since(&self, ways: &mut Ways) -> Result<(), AllocError> {
        let after = self.row.saturating_add(1);
        for j in (0..after).filter(|j| self.lists(self.inside(*j))) {
            self.held(ways, 20, j, j.saturating_add(1)..after)?;
        }
        // A cut needs a row that is far enough, and a row before it that is not past the window's end.
        let begun = self.far_enough(0);
        let cuts = |j: usize| begun && j.checked_sub(1).is_some_and(|k| self.near_enough(k));
        for j in (0..after).filter(|j| self.lists(cuts(*j))) {
            self.cut(ways, 21, j, j..after)?;
        }
        if self.lists(begun) {
            self.never(ways, 22, 0..after)?;
        }
        self.leaf(ways, 23, !begun)
    }

    pub(crate) fn until(&self, ways: &mut Ways) -> Result<(), AllocError> {
        let (row, end) = (self.row, self.rows.len());
        for j in (row..end).filter(|j| self.lists(self.inside(*j))) {
            self.held(ways, 24, j, row..j)?;
        }
        for j in (row..end).filter(|j| self.lists(self.near_enough(*j))) {
            self.cut(ways, 25, j, row..j.saturating_add(1))?;
        }
        // A later row has to close the window.
        if self.lists(!self.near_enough(end.saturating_sub(1))) {
            self.never(ways, 26, row..end)?;
        }
        Ok(())
    }
}
