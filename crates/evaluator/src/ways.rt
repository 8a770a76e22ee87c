// Every way to rule a line at a row, with the whole list of its children, one after another; and near ways, whose condition is not met.
mod here;
mod windows;

use crate::rules::{Kind, Moment, Rule, Statement};
use std::alloc::{AllocError, Global};

// A rule by which a line may be ruled at a row; its children are a part of the list of all children.
// Rules go by their numbers: certificates have those, and the shapes are a table that is read by them.
#[derive(Clone, Copy)]
pub struct Way {
    pub line: usize,
    pub row: usize,
    pub rule: usize,
    pub begin: usize,
    pub end: usize,
}

// The ways at each place, from line 0 up, in each line from row 0 up, in each place by rule and then by j.
// All lie in one list, and all children in a second: a way is five numbers that can be copied, and needs no memory of its own for its children.
#[derive(Drop)]
pub struct Ways {
    pub list: Vec<Way>,
    pub children: Vec<Statement>,
    // Where the ways of a place begin, and after the last place where they end.
    pub places: Vec<usize>,
}

// The line and the row whose ways are listed, with the line's rule and all rows; whether near ways are listed too.
#[derive(Clone, Copy)]
pub(crate) struct Spot<'a> {
    rows: &'a [Moment],
    rule: Rule,
    line: usize,
    row: usize,
    lax: bool,
}

impl Ways {
    // The next way, whose children are those that came since the last one.
    pub(crate) fn way(&mut self, spot: &Spot<'_>, rule: usize) -> Result<(), AllocError> {
        let begin = self.list.last().map_or(0, |last| last.end);
        self.list.push(Way {
            line: spot.line,
            row: spot.row,
            rule,
            begin,
            end: self.children.len(),
        })?;
        Ok(())
    }

    // The children of a way.
    pub fn children_of(&self, way: Way) -> &[Statement] {
        self.children
            .as_slice()
            .get(way.begin..way.end)
            .unwrap_or(&[])
    }

    // The ways at a place; the places of each line stand together.
    pub fn at(&self, place: usize) -> &[Way] {
        self.part(place).unwrap_or(&[])
    }

    fn part(&self, place: usize) -> Option<&[Way]> {
        let begin = *self.places.get(place)?;
        let end = *self.places.get(place.checked_add(1)?)?;
        self.list.as_slice().get(begin..end)
    }
}

impl Spot<'_> {
    // Whether a way is listed whose condition is met, or is not.
    pub(crate) fn lists(&self, met: bool) -> bool {
        self.lax || met
    }

    // A way over no child.
    pub(crate) fn leaf(&self, ways: &mut Ways, rule: usize, met: bool) -> Result<(), AllocError> {
        if self.lists(met) {
            ways.way(self, rule)?;
        }
        Ok(())
    }

    // A way over these children, whose rule has no condition, or one that was asked already.
    pub(crate) fn over(
        &self,
        ways: &mut Ways,
        rule: usize,
        children: &[Statement],
    ) -> Result<(), AllocError> {
        ways.children.extend_from_slice(children)?;
        ways.way(self, rule)
    }

    fn list(&self, ways: &mut Ways) -> Result<(), AllocError> {
        match self.rule.kind {
            Kind::Mark => self.mark(ways),
            Kind::Not => self.not(ways),
            Kind::And => self.and(ways),
            Kind::Or => self.or(ways),
            Kind::Previous => self.previous(ways),
            Kind::Next => self.next(ways),
            Kind::Since => self.since(ways),
            Kind::Until => self.until(ways),
        }
    }
}

// Lists every way at every line and row; with `lax` near ways too.
pub fn list_ways(
    heap: Global,
    rules: &[Rule],
    rows: &[Moment],
    lax: bool,
) -> Result<Ways, AllocError> {
    let mut ways = Ways {
        list: Vec::new(heap),
        children: Vec::new(heap),
        places: Vec::new(heap),
    };
    for (line, rule) in rules.iter().enumerate() {
        for row in 0..rows.len() {
            ways.places.push(ways.list.len())?;
            let spot = Spot {
                rows,
                rule: *rule,
                line,
                row,
                lax,
            };
            spot.list(&mut ways)?;
        }
    }
    ways.places.push(ways.list.len())?;
    Ok(ways)
}
