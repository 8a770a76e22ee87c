// Making calls that are given as values, one after another.
ghost use Rattle.std.specs.Prelude.{◌≡◌, IfOk, vec_len};
ghost use Rattle.mtl.specs.Tables.{lines_of};
ghost use Rattle.replays.specs.Replays.{Makes, Replayed};
ghost use Rattle.cases.specs.View.{state_of};

use crate::call::{Answer, Call};
use cases::case::Case;
use logs::traits::{Growing, Readable};
use mtl::ruling::Claim;
use mtl::table::Table;
use std::alloc::{AllocError, Global};

// The case after the calls, and what they answered.
#[derive(Drop)]
pub struct Outcome<L: Growing> {
    pub case: Case<L>,
    pub answers: Vec<Answer>,
}

// The buffers that calls are lent, as long as any call asks for. `listing` makes the last three likewise: for one struct it would
// stand on this crate for three lines, and make a stack that it never uses.
#[derive(Drop)]
struct Buffers {
    stack: Vec<Claim>,
    sizes: Vec<u16>,
    plan: Vec<u16>,
    out: Vec<u8>,
    ghost places: { vec_len stack ≡ 4096 },
    ghost cells: { (vec_len sizes ≡ 8192) × (vec_len plan ≡ 8192) },
    ghost bytes: { vec_len out ≡ 24576 },
}

impl Buffers {
    fn new(heap: Global) -> Result<Buffers, AllocError> {
        Ok(Buffers {
            stack: vec![in heap; Claim::BLANK; 4096]?,
            sizes: vec![in heap; 0; 8192]?,
            plan: vec![in heap; 0; 8192]?,
            out: vec![in heap; 0; 24576]?,
        })
    }
}

// Makes one call.
fn make<L: Growing>(case: &mut Case<L>, call: &Call<'_>, lent: &mut Buffers) -> Answer
    ensures { Makes (state_of L.Growing.room L.Readable.rows case.old) call.now result (state_of L.Growing.room L.Readable.rows case.new) }
{
    match *call {
        Call::Add(row) => Answer::Added(case.add(row)),
        Call::Present(certificate) => {
            Answer::Presented(case.present(certificate, &mut lent.stack))
        }
        Call::Settle { line, row } => Answer::Settled(case.settle(
            line,
            row,
            &mut lent.sizes,
            &mut lent.plan,
            &mut lent.out,
        )),
        Call::Show { line, row } => Answer::Shown(case.show(line, row)),
    }
}

// Opens a case, makes the calls one after another, and hands back their answers and the case.
pub fn replay<L: Growing + Drop>(
    heap: Global,
    table: Table,
    log: L,
    calls: &[Call<'_>],
) -> Result<Outcome<L>, AllocError>
    ensures { IfOk result (λ p. Replayed (lines_of table) (L.Growing.room log) (L.Readable.rows log) calls.now p.answers.items (state_of L.Growing.room L.Readable.rows p.case)) }
{
    let mut lent = Buffers::new(heap)?;
    let mut case = Case::open(table, log);
    let mut answers = Vec::new(heap);
    for call in calls {
        answers.push(make(&mut case, call, &mut lent))?;
    }
    Ok(Outcome { case, answers })
}
