// Random tables and rows.
use crate::dice::Dice;
use evaluator::rules::{Kind, Moment, Rule};
use std::alloc::{AllocError, Global};

// A rule table and the rows of a log.
#[derive(Drop)]
pub struct Inputs {
    pub rules: Vec<Rule>,
    pub rows: Vec<Moment>,
}

// How far apart rows and how wide windows may be, and where time begins.
#[derive(Clone, Copy)]
struct Scale {
    step: u32,
    width: u32,
    start: u32,
}

const LAST_TIME: u64 = 4_294_967_295;

// The first mark's line, from which other lines are made.
const MARK: Rule = Rule {
    kind: Kind::Mark,
    left: 0,
    right: 0,
    from: 0,
    to: None,
};

fn scale_of(dice: &mut Dice) -> Scale {
    match dice.below(8) {
        0 => Scale {
            step: 1,
            width: 1,
            start: 0,
        },
        1 => Scale {
            step: 2,
            width: 6,
            start: 4_294_967_280,
        },
        2 => Scale {
            step: 1_000_000_000,
            width: 2_000_000_000,
            start: 1_000_000_000,
        },
        3 => Scale {
            step: 10,
            width: 20,
            start: 7,
        },
        _ => Scale {
            step: 2,
            width: 5,
            start: 3,
        },
    }
}

// The kinds that come after the first lines, each as often as it stands here.
const KINDS: [Kind; 15] = [
    Kind::Mark,
    Kind::Not,
    Kind::Not,
    Kind::And,
    Kind::Or,
    Kind::Previous,
    Kind::Previous,
    Kind::Next,
    Kind::Next,
    Kind::Since,
    Kind::Since,
    Kind::Since,
    Kind::Until,
    Kind::Until,
    Kind::Until,
];

// An earlier line, more often than not a late one.
fn operand(dice: &mut Dice, line: usize) -> usize {
    if dice.once_in(2) {
        line.saturating_sub(1)
    } else {
        dice.index(line)
    }
}

fn window(dice: &mut Dice, scale: Scale) -> (u64, u64) {
    if dice.once_in(40) {
        return (dice.below(2) as u64, LAST_TIME);
    }
    let from = if dice.once_in(2) {
        0
    } else {
        dice.below(scale.width) as u64
    };
    let to = from.saturating_add(dice.below(scale.width.saturating_add(1)) as u64);
    (from, to.min(LAST_TIME))
}

// A line that may be entered after so many others.
fn rule_after(dice: &mut Dice, scale: Scale, line: usize) -> Rule {
    let kind = if line < 2 {
        Kind::Mark
    } else {
        *dice.choose(&KINDS).unwrap_or(&Kind::Mark)
    };
    let left = match kind {
        Kind::Mark if dice.once_in(6) => 31,
        Kind::Mark => dice.index(3),
        _ => operand(dice, line),
    };
    let (from, to) = window(dice, scale);
    let endless = kind != Kind::Until && dice.once_in(3);
    Rule {
        kind,
        left,
        right: operand(dice, line),
        from,
        to: if endless { None } else { Some(to) },
    }
}

// The marks of a row: the four that rules look at, more of them or fewer.
fn marks_of(dice: &mut Dice, density: u32) -> u32 {
    let some = dice.any() & 0x8000_0007;
    match density {
        0 => some & dice.any(),
        1 => some | (dice.any() & 0x8000_0007),
        _ => some,
    }
}

fn rows_of(
    heap: Global,
    dice: &mut Dice,
    scale: Scale,
    count: u32,
) -> Result<Vec<Moment>, AllocError> {
    let mut rows = Vec::new(heap);
    let mut time = scale.start as u64;
    let density = dice.below(4);
    for _ in 0..count {
        if !dice.once_in(3) {
            let step = dice.below(scale.step.saturating_add(1)) as u64;
            time = time.saturating_add(step).min(LAST_TIME);
        }
        rows.push(Moment {
            time,
            marks: marks_of(dice, density),
        })?;
    }
    Ok(rows)
}

fn rules_of(
    heap: Global,
    dice: &mut Dice,
    scale: Scale,
    count: u32,
) -> Result<Vec<Rule>, AllocError> {
    let mut rules = Vec::new(heap);
    for line in 0..count {
        rules.push(rule_after(dice, scale, line as usize))?;
    }
    Ok(rules)
}

// The table and the log of a trial.
pub fn inputs_of(heap: Global, trial: u32) -> Result<Inputs, AllocError> {
    let mut dice = Dice::new(trial);
    if trial % 128 == 127 {
        nested(heap, &mut dice)
    } else {
        random(heap, &mut dice)
    }
}

// A small table and log; now and then one with more rows.
fn random(heap: Global, dice: &mut Dice) -> Result<Inputs, AllocError> {
    let scale = scale_of(dice);
    let many = dice.once_in(24);
    let fewest = if many { 4 } else { 2 };
    let lines = dice.below(7).saturating_add(fewest);
    let rows = if many {
        dice.below(8).saturating_add(12)
    } else {
        dice.below(8)
    };
    Ok(Inputs {
        rules: rules_of(heap, dice, scale, lines)?,
        rows: rows_of(heap, dice, scale, rows)?,
    })
}

// Five sinces or untils, each over the one before, on rows where each is broken by its whole window: long certificates.
fn nested(heap: Global, dice: &mut Dice) -> Result<Inputs, AllocError> {
    let kind = if dice.once_in(2) {
        Kind::Since
    } else {
        Kind::Until
    };
    let width = if kind == Kind::Until { 4 } else { 40 };
    let mut rules = vec![in heap; MARK, Rule { left: 1, ..MARK }]?;
    for line in 2..7usize {
        rules.push(Rule {
            kind,
            left: 0,
            right: line - 1,
            from: 0,
            to: Some(width),
        })?;
    }
    let mut rows = Vec::new(heap);
    for row in 0..20u64 {
        let marks = if dice.once_in(200) { 3 } else { 1 };
        rows.push(Moment { time: row, marks })?;
    }
    Ok(Inputs { rules, rows })
}

// Lines that look no further than the next row, for logs of many rows.
pub fn plain_rules(heap: Global) -> Result<Vec<Rule>, AllocError> {
    let rules = vec![in heap;
        MARK,
        Rule { left: 31, ..MARK },
        Rule {
            kind: Kind::Not,
            ..MARK
        },
        Rule {
            kind: Kind::Previous,
            to: Some(3),
            ..MARK
        },
        Rule {
            kind: Kind::Next,
            left: 1,
            ..MARK
        },
    ]?;
    Ok(rules)
}
