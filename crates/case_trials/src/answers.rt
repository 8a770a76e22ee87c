// What a call answered, as a line.
use mtl::ruling::{Claim, Settled};
use replays::call::Answer;
use std::{fmt, io};

#[derive(Clone, Copy)]
struct Told {
    answer: Answer,
}

impl fmt::Display for Told {
    fn fmt<W: fmt::Write>(&self, f: &mut fmt::Formatter<W>) -> fmt::Result {
        match self.answer {
            Answer::Added(Ok(())) => write!(f, "add: taken"),
            Answer::Added(Err(fault)) => write!(f, "add: {fault:?}"),
            Answer::Presented(Ok(Claim { line, row, ruling })) => {
                write!(f, "present: line {line} row {row} {ruling:?}")
            }
            Answer::Presented(Err(fault)) => write!(f, "present: {fault:?}"),
            Answer::Settled(Ok(Settled { ruling, size })) => {
                write!(f, "settle: {ruling:?} in {size}")
            }
            Answer::Settled(Err(fault)) => write!(f, "settle: {fault:?}"),
            Answer::Shown(Ok(Some(ruling))) => write!(f, "show: {ruling:?}"),
            Answer::Shown(Ok(None)) => write!(f, "show: Open"),
            Answer::Shown(Err(fault)) => write!(f, "show: {fault:?}"),
        }
    }
}

pub(crate) fn show_all(rt: &impl Print, answers: &[Answer]) -> io::Result<()> {
    for answer in answers {
        let told = Told { answer: *answer };
        println!(rt; "  {told}")?;
    }
    Ok(())
}
