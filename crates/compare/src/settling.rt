// Settle at every line and row, against the evaluator.
use crate::bench::Bench;
use comparison::dice::Dice;
use comparison::tally::Tally;
use comparison::work::{BYTE, MORE, NEEDED, Work, holds};
use evaluator::told::{Question, claim_at};
use logs::traits::Readable;
use std::alloc::{AllocError, Global};

// Work buffers that are long enough, and what came out.
#[derive(Drop)]
pub(crate) struct Settling {
    work: Work,
    // The ruling and the size, or the refusal.
    pub(crate) answers: Tally,
    // The bytes written, and those after them.
    pub(crate) written: Tally,
    // Rulings in continuations.
    pub(crate) settled_true: Tally,
    // What is in reach is not open.
    pub(crate) reached: Tally,
    // All cells of the first work buffer, and what comes after the cells.
    pub(crate) filled: Tally,
    // Buffers that are too short, and what they then hold.
    pub(crate) short: Tally,
}

impl Settling {
    pub(crate) fn new(heap: Global) -> Result<Settling, AllocError> {
        Ok(Settling {
            work: Work::new(heap, NEEDED + MORE, NEEDED + MORE)?,
            answers: Tally::new(heap),
            written: Tally::new(heap),
            settled_true: Tally::new(heap),
            reached: Tally::new(heap),
            filled: Tally::new(heap),
            short: Tally::new(heap),
        })
    }

    // One line at one row: the answer, the bytes written, the ruling in continuations, and reach.
    fn once<L: Readable>(
        &mut self,
        bench: &Bench<'_>,
        log: &L,
        line: usize,
        row: usize,
    ) -> Result<(), AllocError> {
        let world = &bench.world;
        let place = bench.place(line, row);
        let expected = world.settle(line, row, NEEDED, usize::MAX);
        let bytes = claim_at(expected, line, row)
            .and_then(|claim| world.certificates.bytes(claim))
            .unwrap_or(&[]);
        let mut out = vec![in bench.heap; BYTE; bytes.len().saturating_add(MORE)]?;
        let got = bench.settle(log, line, row, &mut self.work, &mut out);
        self.answers.answer(place, expected, got)?;
        self.written
            .right(place, holds(out.as_slice(), bytes), got)?;
        if let Some(claim) = claim_at(got, line, row) {
            let right = bench.futures.agree(world.rules.as_slice(), claim);
            self.settled_true.right(place, right, got)?;
        }
        if world.reach.at(line, row) {
            let open = got == Err(Question::IsRuled.into());
            self.reached.right(place, !open, got)?;
        }
        Ok(())
    }

    // A call with buffers that may be too short, and what they hold afterwards.
    fn with_short_buffers<L: Readable>(
        &mut self,
        bench: &Bench<'_>,
        log: &L,
        dice: &mut Dice,
    ) -> Result<(), AllocError> {
        let sizes = if dice.once_in(4) {
            NEEDED - 1
        } else {
            NEEDED + MORE
        };
        let plan = if dice.once_in(4) { NEEDED - 1 } else { NEEDED };
        let mut work = Work::new(bench.heap, sizes, plan)?;
        let line = dice.index(bench.world.rules.len().saturating_add(1));
        let row = dice.index(bench.world.rows.len().saturating_add(1));
        let room = dice.index(30);
        let place = bench.place(line, row);
        let mut out = vec![in bench.heap; BYTE; room]?;
        let expected = bench.world.settle(line, row, work.cells(), room);
        let got = bench.settle(log, line, row, &mut work, &mut out);
        self.short.answer(place, expected, got)?;
        let unbegun = [
            Question::LineIsThere,
            Question::RowIsThere,
            Question::CellsAreEnough,
        ];
        if got.is_err_and(|refused| refused.is_by(&unbegun)) {
            self.short.right(place, work.is_untouched(), got)?;
        } else {
            self.filled.right(place, work.is_filled(&bench.world), got)?;
        }
        if claim_at(got, line, row).is_none() {
            self.short.right(place, holds(out.as_slice(), &[]), got)?;
        }
        Ok(())
    }

    // Every line at every row, and one more of each, which are refused; then short buffers.
    fn on<L: Readable>(
        &mut self,
        bench: &Bench<'_>,
        log: &L,
        dice: &mut Dice,
    ) -> Result<(), AllocError> {
        for line in 0..=bench.world.rules.len() {
            for row in 0..=bench.world.rows.len() {
                self.once(bench, log, line, row)?;
            }
        }
        self.with_short_buffers(bench, log, dice)?;
        self.with_short_buffers(bench, log, dice)
    }

    // Settle on all three kinds of log.
    pub(crate) fn all(&mut self, bench: &Bench<'_>, dice: &mut Dice) -> Result<(), AllocError> {
        self.on(bench, &bench.masks, dice)?;
        self.on(bench, &bench.changes, dice)?;
        self.on(bench, &bench.sheet, dice)
    }
}
