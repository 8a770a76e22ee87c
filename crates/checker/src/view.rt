// A log as a node sees it: differences of times, the children's rows, and the conditions, rule by rule.
ghost use Rattle.std.specs.Prelude.{◌≡◌, ◌<◌, length};
ghost use Rattle.checker.specs.Parts.{between, beside, interval_of};
ghost use Rattle.checker.specs.Children.{all_at, rows_are, chosen, led};
ghost use Rattle.checker.specs.Placed.{since_held, since_broken, until_held, until_broken, led_by, placed};

use crate::parts::Parts;
use logs::traits::{Readable, row_at};
use mtl::line::{Kind, Window};
use mtl::ruling::Claim;
use proof_rules::standing::Interval;
use std::ops::Range;

// On which side of a node's row other rows lie.
#[derive(Clone, Copy)]
pub(crate) enum Side {
    Before,
    After,
}

// A log as a node sees it: from the node's row, for its line.
#[derive_where(Clone, Copy)]
pub(crate) struct View<'a, L> {
    pub(crate) log: &'a L,
    pub(crate) parts: Parts,
    pub(crate) row: u16,
}

// Whether all children stand at one row.
fn all_at(children: &[Claim], row: usize) -> bool
    ensures { result ≡ all_at row children.now }
{
    children.iter().all(|child| child.row as usize == row)
}

impl<'a, L: Readable> View<'a, L> {
    // How far row k lies before or after the node's row.
    fn apart(self, side: Side, k: usize) -> u32
        ensures { result ≡ between (L.Readable.rows self.entry.log.now) side self.entry.row k }
    {
        let here = row_at(self.log, self.row as usize).time;
        let there = row_at(self.log, k).time;
        match side {
            Side::Before => here.saturating_sub(there),
            Side::After => there.saturating_sub(here),
        }
    }

    // For previous and next: how far the row beside lies, if there is one.
    fn gap(self) -> Option<u32>
        ensures { result ≡ beside (L.Readable.rows self.entry.log.now) self.entry.parts.kind self.entry.row }
    {
        let row = self.row as usize;
        match self.parts.kind {
            Kind::Previous if row > 0 => Some(self.apart(Side::Before, row - 1)),
            Kind::Next if row + 1 < self.log.len() => Some(self.apart(Side::After, row + 1)),
            _ => None,
        }
    }

    // That interval, against the line's window.
    pub(crate) fn interval(self) -> Interval
        ensures { result ≡ interval_of (L.Readable.rows self.entry.log.now) self.entry.row self.entry.parts }
    {
        Interval {
            window: self.parts.window,
            gap: self.gap(),
        }
    }

    // Whether the children stand, one each and in order, at those of the rows whose difference is inside the window.
    fn rows_are(self, children: &[Claim], side: Side, window: Window, rows: Range<usize>) -> bool
        ensures { result ≡ rows_are (chosen (L.Readable.rows self.entry.log.now) side window self.entry.row rows.start rows.end) children.now }
    {
        rows.filter(|k| window.inside(self.apart(side, *k)))
            .eq(children.iter().map(|child| child.row as usize))
    }

    // Rule 20: right held at j, left held at every row after it up to the node's.
    fn since_held(self, j: u16, others: &[Claim]) -> bool
        ensures { result ≡ since_held (L.Readable.rows self.entry.log.now) self.entry.parts.window self.entry.row j others.now }
    {
        let i = self.row as usize;
        let j = j as usize;
        self.rows_are(others, Side::Before, Window::at_least(0), j + 1..i + 1)
            && j <= i
            && self.parts.window.inside(self.apart(Side::Before, j))
    }

    // Rule 21: left broken at j, right broken at the window's rows from j on; row j - 1 is not past the window's end.
    fn since_broken(self, j: u16, others: &[Claim]) -> bool
        ensures { result ≡ since_broken (L.Readable.rows self.entry.log.now) self.entry.parts.window self.entry.row j others.now }
    {
        let window = self.parts.window;
        let i = self.row as usize;
        let j = j as usize;
        let from = Window::at_least(window.from);
        self.rows_are(others, Side::Before, from, j..i + 1)
            && 1 <= j
            && j <= i
            && window.up_to(self.apart(Side::Before, j - 1))
            && window.from <= self.apart(Side::Before, 0)
    }

    // Rule 24: right held at j, left held at every row from the node's to before j.
    fn until_held(self, j: u16, others: &[Claim]) -> bool
        ensures { result ≡ until_held (L.Readable.rows self.entry.log.now) self.entry.parts.window self.entry.row j others.now }
    {
        let i = self.row as usize;
        let j = j as usize;
        self.rows_are(others, Side::After, Window::at_least(0), i..j)
            && i <= j
            && j < self.log.len()
            && self.parts.window.inside(self.apart(Side::After, j))
    }

    // Rule 25: left broken at j, right broken at the window's rows up to j; row j is not past the window's end.
    fn until_broken(self, j: u16, others: &[Claim]) -> bool
        ensures { result ≡ until_broken (L.Readable.rows self.entry.log.now) self.entry.parts.window self.entry.row j others.now }
    {
        let window = self.parts.window;
        let i = self.row as usize;
        let j = j as usize;
        self.rows_are(others, Side::After, Window::at_least(window.from), i..j + 1)
            && i <= j
            && j < self.log.len()
            && window.up_to(self.apart(Side::After, j))
    }

    // The rules that leave a choice of j: the first child stands there. Rules go by their numbers, a wanted form (docs/DECISIONS.md).
    fn led_by(self, rule: u8, children: &[Claim]) -> bool
        ensures { result ≡ led (led_by (L.Readable.rows self.entry.log.now) rule self.entry.parts.window self.entry.row) children.now }
    {
        let [first, others @ ..] = children else {
            return false;
        };
        match rule {
            20 => self.since_held(first.row, others),
            21 => self.since_broken(first.row, others),
            24 => self.until_held(first.row, others),
            _ => self.until_broken(first.row, others),
        }
    }

    // Whether the children stand at the rows that the rule shows, and its condition is met, the interval to the row beside apart.
    // Rules go by their numbers, as above.
    pub(crate) fn rows_fit(self, rule: u8, children: &[Claim]) -> bool
        requires { self.row < length (L.Readable.rows self.log.now) }
        ensures { result ≡ placed (L.Readable.rows self.entry.log.now) rule self.entry.parts self.entry.row children.now }
    {
        let i = self.row as usize;
        let Parts { window, left, .. } = self.parts;
        match rule {
            1 => row_at(self.log, i).stands(left as u32),
            2 => !row_at(self.log, i).stands(left as u32),
            3..=10 => all_at(children, i),
            11..=12 => all_at(children, i.saturating_sub(1)),
            16..=17 => all_at(children, i + 1),
            20..=21 | 24..=25 => self.led_by(rule, children),
            22 => self.rows_are(children, Side::Before, window, 0..i + 1)
                && window.from <= self.apart(Side::Before, 0),
            23 => self.apart(Side::Before, 0) < window.from,
            26 => self.rows_are(children, Side::After, window, i..self.log.len())
                && window.beyond(self.apart(Side::After, self.log.len() - 1)),
            _ => true,
        }
    }
}
