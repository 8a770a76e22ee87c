// From the evaluator's values to the library's, and back from its answers.
use checker::fault::{CheckFault, RefusedAt};
use evaluator::rules::{Moment, Rule, Statement};
use evaluator::told::{Answer, Refused, Told};
use mtl::draft::Draft;
use mtl::line::{Fields, LineFault};
use mtl::row::Row;
use mtl::ruling::{Claim, Ruling, Settled};
use mtl::table::Table;
use std::alloc::{AllocError, Global};

fn word(number: u64) -> u32 {
    u32::try_from(number).unwrap_or(u32::MAX)
}

// Enters a rule into a draft.
fn enter(draft: &mut Draft, rule: &Rule) -> Result<(), LineFault> {
    let fields = Fields {
        from: word(rule.from),
        to: rule.to.map(word),
        left: word(rule.left as u64),
        right: word(rule.right as u64),
    };
    draft.enter(char::from(rule.kind), fields)
}

// The table of the rules, as far as they are taken; a fault is lost, so this is no From.
pub fn table_of(rules: &[Rule]) -> Table {
    let mut draft = Draft::new();
    for rule in rules {
        let _ = enter(&mut draft, rule);
    }
    draft.close()
}

// A row. Neither type is this crate's, so no From may stand here.
pub fn row_of(moment: Moment) -> Row {
    Row {
        time: word(moment.time),
        marks: moment.marks,
    }
}

// The rows of a log.
pub fn rows_of(heap: Global, moments: &[Moment]) -> Result<Vec<Row>, AllocError> {
    moments.iter().map(|moment| row_of(*moment)).collect(heap)
}

// The bytes of a sheet with these rows, one after another, written out here, since the library's order is what is compared.
// `log_trials` has this too: no crate below both has a heap.
pub fn sheet_bytes(heap: Global, rows: &[Row]) -> Result<Vec<u8>, AllocError> {
    let mut bytes = Vec::new(heap);
    for row in rows {
        bytes.extend_from_slice(&row.time.to_be_bytes())?;
        bytes.extend_from_slice(&row.marks.to_be_bytes())?;
    }
    Ok(bytes)
}

// What a call of the library answers, in the evaluator's words.
pub trait Tell {
    fn tell(self) -> Answer;
}

impl Tell for () {
    fn tell(self) -> Answer {
        Answer::Done
    }
}

impl Tell for Claim {
    fn tell(self) -> Answer {
        Answer::Proved(Statement {
            line: usize::from(self.line),
            row: usize::from(self.row),
            held: self.ruling == Ruling::Held,
        })
    }
}

impl Tell for Settled {
    fn tell(self) -> Answer {
        Answer::Ruled {
            held: self.ruling == Ruling::Held,
            nodes: u64::from(self.size),
        }
    }
}

impl Tell for Option<Ruling> {
    fn tell(self) -> Answer {
        Answer::Shows(self.map(|ruling| ruling == Ruling::Held))
    }
}

// What a call told whose refusals are numbers alone.
pub fn told<A: Tell + Drop, F: Into<u8> + Drop>(answer: Result<A, F>) -> Told {
    answer.map(|answer| answer.tell()).map_err(|fault| Refused {
        question: fault.into(),
        node: 0,
    })
}

// What Check or Present told, whose refusals name a node.
pub fn told_checked(answer: Result<Claim, CheckFault>) -> Told {
    answer.map(|claim| claim.tell()).map_err(|fault| {
        let RefusedAt { number, node } = fault.into();
        Refused {
            question: number,
            node,
        }
    })
}
