// Random continuations of a log's rows, long enough for every nesting of next and until.
use crate::dice::Dice;
use evaluator::rules::{Moment, Rule, Statement};
use evaluator::truth::Course;
use std::alloc::{AllocError, Global};

// Some continuations.
#[derive(Drop)]
pub struct Futures {
    lists: Vec<Vec<Moment>>,
}

// One more than any window's start or end.
fn past_all_windows(rules: &[Rule]) -> u64 {
    rules
        .iter()
        .map(|rule| rule.to.unwrap_or(0).max(rule.from))
        .max()
        .map_or(1, |most| most.saturating_add(1))
}

// A time from the last one on: the same, a little later, or exactly at the end of some row's window.
fn time_after(dice: &mut Dice, rules: &[Rule], rows: &[Moment], last: u64) -> u64 {
    let rule = dice.choose(rules);
    let row = dice.choose(rows);
    match (rule, row) {
        (Some(Rule { to: Some(to), .. }), Some(row)) if dice.once_in(3) => {
            row.time.saturating_add(*to).max(last)
        }
        _ if dice.once_in(3) => last,
        _ => last.saturating_add(dice.below(4) as u64),
    }
}

fn continued(
    heap: Global,
    dice: &mut Dice,
    rules: &[Rule],
    rows: &[Moment],
) -> Result<Vec<Moment>, AllocError> {
    let mut list = Vec::from_slice(heap, rows)?;
    let mut time = rows.last().map_or(0, |row| row.time);
    for _ in 0..dice.below(6) {
        time = time_after(dice, rules, list.as_slice(), time);
        list.push(Moment {
            time,
            marks: dice.any(),
        })?;
    }
    let step = past_all_windows(rules);
    for _ in 0..rules.len() {
        time = time.saturating_add(step);
        list.push(Moment {
            time,
            marks: dice.any(),
        })?;
    }
    time = time.saturating_add(step);
    list.push(Moment { time, marks: 0 })?;
    Ok(list)
}

impl Futures {
    // So many continuations of the rows.
    pub fn of(
        heap: Global,
        dice: &mut Dice,
        rules: &[Rule],
        rows: &[Moment],
        count: u32,
    ) -> Result<Futures, AllocError> {
        let mut lists = Vec::new(heap);
        for _ in 0..count {
            lists.push(continued(heap, dice, rules, rows)?)?;
        }
        Ok(Futures { lists })
    }

    // Whether a claim is true in every one of them.
    pub fn agree(&self, rules: &[Rule], claim: Statement) -> bool {
        self.lists.iter().all(|list| {
            let course = Course {
                rules,
                rows: list.as_slice(),
            };
            course.truth(claim.line, claim.row) == Some(claim.held)
        })
    }
}
