//! Tries Settle and Check from outside: random tables, logs and certificates, each answer compared with the evaluator's.
#![tactic(auto)]

mod bench;
mod checking;
mod settling;

use anyhow::anyhow;
use bench::Bench;
use checking::Checking;
use comparison::dice::Dice;
use comparison::inputs::inputs_of;
use comparison::library::{rows_of, sheet_bytes};
use comparison::tally::print_all;
use logs::sheet::Sheet;
use settling::Settling;
use std::alloc::Global;

const TRIALS: u32 = 3000;

// One table and log.
fn try_table(
    heap: Global,
    trial: u32,
    settling: &mut Settling,
    checking: &mut Checking,
) -> anyhow::Result<()> {
    let inputs = inputs_of(heap, trial)?;
    let rows = rows_of(heap, inputs.rows.as_slice())?;
    let bytes = sheet_bytes(heap, rows.as_slice())?;
    let sheet = Sheet::read(bytes.as_slice()).map_err(|fault| anyhow!(
        "trial {trial}: a sheet is refused by {fault:?}"
    ))?;
    let mut dice = Dice::new(trial);
    let bench = Bench::of(heap, trial, &inputs, sheet, &mut dice)?;
    settling.all(&bench, &mut dice)?;
    checking.all(&bench)?;
    Ok(())
}

fn main(rt: HostRuntime) -> anyhow::Result<()> {
    let mut settling = Settling::new(rt.alloc())?;
    let mut checking = Checking::new(rt.alloc())?;
    for trial in 0..TRIALS {
        try_table(rt.alloc(), trial, &mut settling, &mut checking)?;
    }
    println!(rt; "{TRIALS} tables and logs")?;
    let topics = [
        ("settle, answers", &settling.answers),
        ("settle, bytes written and left", &settling.written),
        (
            "settle, rulings true in continuations",
            &settling.settled_true,
        ),
        ("settle, in reach and not open", &settling.reached),
        ("settle, work buffers filled", &settling.filled),
        ("settle, short buffers", &settling.short),
        ("check, certificates as written", &checking.written),
        ("check, damaged certificates", &checking.damaged),
        (
            "check, accepted damage true in continuations",
            &checking.damaged_true,
        ),
    ];
    print_all(&rt, &topics)?;
    Ok(())
}
