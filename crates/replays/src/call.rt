// Calls on a case as values, and their answers.
use cases::case::ShowFault;
use checker::fault::CheckFault;
use logs::fault::AddFault;
use mtl::row::Row;
use mtl::ruling::{Claim, Ruling, Settled};
use writer::fault::SettleFault;

// A call, with what it is handed beside the buffers.
#[derive(Clone, Copy)]
pub enum Call<'a> {
    Add(Row),
    Present(&'a [u8]),
    Settle { line: usize, row: usize },
    Show { line: usize, row: usize },
}

// What a call answered.
#[derive(Clone, Copy)]
pub enum Answer {
    Added(Result<(), AddFault>),
    Presented(Result<Claim, CheckFault>),
    Settled(Result<Settled, SettleFault>),
    Shown(Result<Option<Ruling>, ShowFault>),
}
