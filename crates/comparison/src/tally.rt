// What was compared on one topic, and what came out.
use evaluator::rules::Statement;
use evaluator::told::{Answer, Refused, Told};
use std::alloc::{AllocError, Global};
use std::{fmt, io};

// Where a comparison stands: the trial's number, and a line and a row of its table and log.
#[derive(Clone, Copy)]
pub struct Place {
    pub trial: u32,
    pub line: usize,
    pub row: usize,
}

// A difference: where, what was to be told, and what was told; nothing where what an answer left behind is wrong.
#[derive(Clone, Copy)]
struct Difference {
    place: Place,
    expected: Told,
    got: Option<Told>,
}

// How many differences of a topic are printed.
const SHOWN: usize = 5;

// The counts of a topic: comparisons, differences, rulings and refusals by number.
#[derive(Drop)]
pub struct Tally {
    compared: u64,
    differ: u64,
    held: u64,
    broken: u64,
    refused: [u64; 32],
    differences: Vec<Difference>,
}

impl Tally {
    // Nothing compared yet.
    pub fn new(heap: Global) -> Tally {
        Tally {
            compared: 0,
            differ: 0,
            held: 0,
            broken: 0,
            refused: [0; 32],
            differences: Vec::new(heap),
        }
    }

    fn ruled(&mut self, held: bool) {
        if held {
            self.held = self.held.saturating_add(1);
        } else {
            self.broken = self.broken.saturating_add(1);
        }
    }

    // Counts what the library told.
    fn count(&mut self, got: Told) {
        match got {
            Ok(Answer::Done | Answer::Shows(None)) => {}
            Ok(Answer::Proved(Statement { held, .. })) => self.ruled(held),
            Ok(Answer::Ruled { held, .. } | Answer::Shows(Some(held))) => self.ruled(held),
            Err(Refused { question, .. }) => {
                if let Some(count) = self.refused.get_mut(usize::from(question)) {
                    *count = count.saturating_add(1);
                }
            }
        }
    }

    fn differs(&mut self, difference: Difference) -> Result<(), AllocError> {
        self.differ = self.differ.saturating_add(1);
        if self.differences.len() < SHOWN {
            self.differences.push(difference)?;
        }
        Ok(())
    }

    // Compares what was told with what is to be told.
    pub fn answer(&mut self, place: Place, expected: Told, got: Told) -> Result<(), AllocError> {
        self.compared = self.compared.saturating_add(1);
        self.count(got);
        if expected == got {
            return Ok(());
        }
        let got = Some(got);
        self.differs(Difference {
            place,
            expected,
            got,
        })
    }

    // Counts something that goes with an answer and is right or not.
    pub fn right(&mut self, place: Place, right: bool, answer: Told) -> Result<(), AllocError> {
        self.compared = self.compared.saturating_add(1);
        if right {
            return Ok(());
        }
        let (expected, got) = (answer, None);
        self.differs(Difference {
            place,
            expected,
            got,
        })
    }

    fn print_counts(&self, rt: &impl Print) -> io::Result<()> {
        let held = self.held;
        let broken = self.broken;
        if held > 0 || broken > 0 {
            print!(rt; ", held {held}, broken {broken}")?;
        }
        for (number, count) in self.refused.iter().enumerate() {
            if *count > 0 {
                print!(rt; ", {number}: {count}")?;
            }
        }
        println!(rt; "")
    }

    // A line with all counts, and one for each difference that is shown.
    fn print(&self, rt: &impl Print, name: &str) -> io::Result<()> {
        let compared = self.compared;
        print!(rt; "{name}: {compared}")?;
        self.print_counts(rt)?;
        for difference in &self.differences {
            print_difference(rt, *difference)?;
        }
        Ok(())
    }
}

// An answer or a refusal, whichever was told.
#[derive(Clone, Copy)]
struct Shown(Told);

impl fmt::Display for Shown {
    fn fmt<W: fmt::Write>(&self, f: &mut fmt::Formatter<W>) -> fmt::Result {
        match self.0 {
            Ok(answer) => write!(f, "{answer:?}"),
            Err(refused) => write!(f, "{refused:?}"),
        }
    }
}

fn print_difference(rt: &impl Print, difference: Difference) -> io::Result<()> {
    let Place { trial, line, row } = difference.place;
    let expected = Shown(difference.expected);
    print!(rt; "  trial {trial} line {line} row {row}: ")?;
    match difference.got.map(Shown) {
        Some(got) => println!(rt; "{got} for {expected}"),
        None => println!(rt; "what goes with {expected} is wrong"),
    }
}

// Prints every topic by its name, and how many comparisons came out otherwise than they should.
pub fn print_all(rt: &impl Print, topics: &[(&str, &Tally)]) -> io::Result<()> {
    let mut differ = 0u64;
    for (name, tally) in topics {
        tally.print(rt, name)?;
        differ = differ.saturating_add(tally.differ);
    }
    println!(rt; "differ {differ}")
}
