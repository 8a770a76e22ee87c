//! Trials of Check over mask logs: the worked certificate, every change of one of its bytes and every cut,
//! the largest and the smallest sizes, and a few certificates of since and until at the ends of their windows.
#![tactic(auto)]

ghost use Rattle.std.specs.Prelude.{◌<◌};

mod answer;
mod end;

use answer::Answer;
use checker::check::check;
use end::End;
use logs::any_log::add_all;
use logs::mask::MaskLog;
use mtl::row::Row;
use mtl::ruling::Claim;
use mtl::table::Table;
use std::io;
use std::io::Print;
use trial_lines::windowed::Windowed;

// Line 0 broken at row 3 by rule 2, line 1 likewise, and line 2, a since, broken there by rule 21.
const WORKED: [u8; 18] = [0, 2, 0, 3, 0, 0, 1, 2, 0, 3, 0, 0, 2, 21, 0, 3, 0, 2];

// A certificate of one node.
const LEAF: [u8; 6] = [0, 2, 0, 3, 0, 0];

fn log_of(rows: &[Row]) -> MaskLog {
    let mut log = MaskLog::new();
    let _ = add_all(&mut log, rows);
    log
}

fn worked_log() -> MaskLog {
    let rows = [
        Row { time: 0, marks: 1 },
        Row { time: 2, marks: 3 },
        Row { time: 4, marks: 1 },
        Row { time: 4, marks: 0 },
        Row { time: 9, marks: 1 },
    ];
    log_of(&rows)
}

// A table and a log on which certificates are tried.
#[derive(Drop)]
struct Ground {
    table: Table,
    log: MaskLog,
}

impl Ground {
    fn check(&self, certificate: &[u8], stack: &mut [Claim]) -> Answer {
        Answer {
            told: check(&self.table, &self.log, certificate, stack),
        }
    }
}

// Every value of one byte, in runs of values that get the same answer.
fn byte_changed(
    rt: &HostRuntime,
    ground: &Ground,
    stack: &mut [Claim],
    at: usize,
) -> io::Result<()> {
    let mut answers = Vec::new(rt.alloc());
    for value in 0..=255u8 {
        let mut changed = WORKED;
        if let Some(byte) = changed.get_mut(at) {
            *byte = value;
        }
        answers.push((value, ground.check(&changed, stack)))?;
    }
    for run in answers.chunk_by(|a, b| a.1 == b.1) {
        if let (Some((first, answer)), Some((last, _))) = (run.first(), run.last()) {
            println!(rt; "byte {at} = {first} to {last}: {answer}")?;
        }
    }
    Ok(())
}

fn bytes_changed(rt: &HostRuntime, ground: &Ground, stack: &mut [Claim]) -> io::Result<()> {
    for at in 0..WORKED.len() {
        byte_changed(rt, ground, stack, at)?;
    }
    Ok(())
}

fn cuts(out: &impl Print, ground: &Ground, stack: &mut [Claim]) -> io::Result<()> {
    for n in 0..WORKED.len() {
        let answer = ground.check(&WORKED[..n], stack);
        println!(out; "first {n} bytes: {answer}")?;
    }
    Ok(())
}

// Leaves one after another.
fn leaves(
    out: &impl Print,
    ground: &Ground,
    leaves: &[[u8; 6]],
    stack: &mut [Claim],
) -> io::Result<()> {
    let nodes = leaves.len();
    let places = stack.len();
    let answer = ground.check(leaves.as_flattened(), stack);
    println!(out; "{nodes} leaves, stack of {places}: {answer}")
}

fn sizes(out: &impl Print, ground: &Ground) -> io::Result<()> {
    let mut stack = [Claim::BLANK; 4097];
    leaves(out, ground, &[LEAF; 1], &mut stack)?;
    leaves(out, ground, &[LEAF; 2], &mut stack)?;
    leaves(out, ground, &[LEAF; 4096], &mut stack)?;
    leaves(out, ground, &[LEAF; 4097], &mut stack)?;
    leaves(out, ground, &[LEAF; 4096], &mut [Claim::BLANK; 4095])?;
    leaves(out, ground, &[LEAF; 4096], &mut [Claim::BLANK; 4096])?;
    let short = ground.check(&WORKED, &mut [Claim::BLANK; 2]);
    println!(out; "worked, stack of 2: {short}")
}

// One line with a window, over a few rows.
fn sample(out: &impl Print, line: Windowed, rows: &[Row], certificate: &[u8]) -> io::Result<()> {
    let ground = Ground {
        table: line.table(),
        log: log_of(rows),
    };
    let nodes = certificate.len() / 6;
    let count = rows.len();
    let answer = ground.check(certificate, &mut [Claim::BLANK; 4]);
    let letter = line.letter;
    let from = line.window.from;
    let to = End { to: line.window.to };
    println!(out; "{letter} {from} {to}, {count} rows, {nodes} nodes: {answer}")
}

fn row(time: u32, marks: u32) -> Row {
    Row { time, marks }
}

fn sinces(out: &impl Print) -> io::Result<()> {
    let far = [row(0, 1), row(10, 1)];
    sample(out, Windowed::since(3, Some(5)), &far, &[2, 22, 0, 1, 0, 0])?;
    let near = [row(0, 1), row(2, 1)];
    sample(out, Windowed::since(3, None), &near, &[2, 22, 0, 1, 0, 0])?;
    sample(out, Windowed::since(3, None), &near, &[2, 23, 0, 1, 0, 0])?;
    let held = [row(0, 1), row(2, 3), row(4, 1)];
    let by_20 = [1, 1, 0, 1, 0, 0, 0, 1, 0, 2, 0, 0, 2, 20, 0, 2, 0, 2];
    sample(out, Windowed::since(0, Some(5)), &held, &by_20)?;
    sample(out, Windowed::since(0, Some(1)), &held, &by_20)?;
    sample(out, Windowed::since(0, Some(2)), &held, &by_20)?;
    let cut = [row(0, 1), row(2, 0), row(4, 1)];
    let inside = [0, 2, 0, 1, 0, 0, 1, 2, 0, 1, 0, 0, 2, 21, 0, 2, 0, 2];
    let to_row = [
        0, 2, 0, 1, 0, 0, 1, 2, 0, 1, 0, 0, 1, 2, 0, 2, 0, 0, 2, 21, 0, 2, 0, 3,
    ];
    sample(out, Windowed::since(2, None), &cut, &inside)?;
    sample(out, Windowed::since(2, None), &cut, &to_row)?;
    sample(out, Windowed::since(0, Some(3)), &cut, &to_row)
}

fn untils(out: &impl Print) -> io::Result<()> {
    let closing = [row(0, 1), row(5, 1), row(6, 1)];
    let by_26 = [1, 2, 0, 0, 0, 0, 1, 2, 0, 1, 0, 0, 2, 26, 0, 0, 0, 2];
    sample(out, Windowed::until(0, Some(5)), &closing[..2], &by_26)?;
    sample(out, Windowed::until(0, Some(5)), &closing, &by_26)?;
    let ended = [row(0, 1), row(5, 0)];
    let by_25 = [
        0, 2, 0, 1, 0, 0, 1, 2, 0, 0, 0, 0, 1, 2, 0, 1, 0, 0, 2, 25, 0, 0, 0, 3,
    ];
    sample(out, Windowed::until(0, Some(5)), &ended, &by_25)?;
    sample(out, Windowed::until(0, Some(4)), &ended, &by_25)?;
    let by_24 = [1, 1, 0, 1, 0, 0, 0, 1, 0, 0, 0, 0, 2, 24, 0, 0, 0, 2];
    sample(
        out,
        Windowed::until(0, Some(5)),
        &[row(0, 1), row(5, 2)],
        &by_24,
    )?;
    sample(
        out,
        Windowed::until(0, Some(5)),
        &[row(0, 1), row(6, 2)],
        &by_24,
    )
}

fn main(rt: HostRuntime) -> io::Result<()> {
    let ground = Ground {
        table: Windowed::since(0, Some(5)).table(),
        log: worked_log(),
    };
    let mut stack = [Claim::BLANK; 3];
    let answer = ground.check(&WORKED, &mut stack);
    println!(rt; "worked: {answer}")?;
    bytes_changed(&rt, &ground, &mut stack)?;
    cuts(&rt, &ground, &mut stack)?;
    sizes(&rt, &ground)?;
    sinces(&rt)?;
    untils(&rt)
}
