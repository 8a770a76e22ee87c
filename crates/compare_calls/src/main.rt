//! Tries the calls of a case and of a draft from outside: random lists of calls, each answer compared with a model's.
#![tactic(auto)]

mod calls;
mod drafts;
mod model;
mod tallies;

use calls::Run;
use cases::case::Case;
use comparison::inputs::{Inputs, inputs_of, plain_rules};
use comparison::library::table_of;
use drafts::enter_all;
use evaluator::rules::Rule;
use logs::changes::ChangeLog;
use logs::mask::MaskLog;
use logs::traits::Growing;
use model::Model;
use std::alloc::{AllocError, Global};
use tallies::Tallies;

const TRIALS: u32 = 1500;

// Whether a trial fills its log.
fn is_busy(trial: u32) -> bool {
    trial % 64 == 63
}

fn rules_of(heap: Global, trial: u32) -> Result<Vec<Rule>, AllocError> {
    if is_busy(trial) {
        plain_rules(heap)
    } else {
        let Inputs { rules, .. } = inputs_of(heap, trial)?;
        Ok(rules)
    }
}

// Opens a case over a log with no row, which has room for so many changes if it counts them, and makes calls on it.
fn make_calls<L: Growing + Drop>(
    heap: Global,
    trial: u32,
    log: L,
    room: Option<usize>,
    tallies: &mut Tallies,
) -> Result<(), AllocError> {
    let rules = rules_of(heap, trial)?;
    let case = Case::open(table_of(rules.as_slice()), log);
    let model = Model::new(heap, room, rules)?;
    let mut run = Run::new(heap, trial, case, model, is_busy(trial))?;
    let calls = if is_busy(trial) { 160 } else { 40 };
    for _ in 0..calls {
        run.call(tallies)?;
    }
    Ok(())
}

fn try_all(heap: Global) -> Result<Tallies, AllocError> {
    let mut tallies = Tallies::new(heap);
    for trial in 0..TRIALS {
        make_calls(heap, trial, MaskLog::new(), None, &mut tallies)?;
        make_calls(heap, trial, ChangeLog::new(), Some(512), &mut tallies)?;
        enter_all(trial, &mut tallies.entered)?;
    }
    Ok(tallies)
}

fn main(rt: HostRuntime) -> anyhow::Result<()> {
    let tallies = try_all(rt.alloc())?;
    println!(rt; "{TRIALS} lists of calls over each growing kind of log, and drafts")?;
    tallies.print(&rt)?;
    Ok(())
}
