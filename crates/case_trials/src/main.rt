//! Makes the same calls on a case over each growing kind of log, and prints every answer.
#![tactic(auto)]

mod answers;
mod calls;

use answers::show_all;
use calls::{closed_calls, early_calls, far_calls, left_calls, since_calls};
use logs::changes::ChangeLog;
use logs::mask::MaskLog;
use logs::traits::Growing;
use replays::call::Call;
use replays::replay::replay;
use trial_lines::windowed::Windowed;

// Makes the calls on a case with the line's table and this log, and prints what they answer.
fn over<L: Growing + Drop>(
    rt: &HostRuntime,
    line: Windowed,
    log: L,
    calls: &[Call<'_>],
) -> anyhow::Result<()> {
    let outcome = replay(rt.alloc(), line.table(), log, calls)?;
    show_all(rt, &outcome.answers)?;
    Ok(())
}

fn trial(rt: &HostRuntime, line: Windowed, calls: &[Call<'_>]) -> anyhow::Result<()> {
    let letter = line.letter;
    let from = line.window.from;
    match line.window.to {
        Some(to) => println!(rt; "{letter} from {from} to {to}, over a mask log")?,
        None => println!(rt; "{letter} from {from}, over a mask log")?,
    }
    over(rt, line, MaskLog::new(), calls)?;
    rt.println("the same over a change log")?;
    over(rt, line, ChangeLog::new(), calls)
}

fn main(rt: HostRuntime) -> anyhow::Result<()> {
    let certificate = [0, 2, 0, 3, 0, 0, 1, 2, 0, 3, 0, 0, 2, 21, 0, 3, 0, 2];
    let false_one = [0, 2, 0, 3, 0, 0, 1, 2, 0, 3, 0, 0, 2, 22, 0, 3, 0, 2];
    trial(
        &rt,
        Windowed::since(0, Some(5)),
        &since_calls(&certificate, &false_one),
    )?;
    trial(&rt, Windowed::since(3, Some(5)), &far_calls())?;
    trial(
        &rt,
        Windowed::since(3, None),
        &early_calls(&[2, 22, 0, 1, 0, 0]),
    )?;
    trial(&rt, Windowed::until(0, Some(5)), &closed_calls())?;
    trial(&rt, Windowed::until(0, Some(5)), &left_calls())
}
