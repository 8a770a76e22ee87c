// A table and rows as the library holds them, the rows in all three kinds of log, beside what the evaluator finds out.
use checker::check::check;
use comparison::dice::Dice;
use comparison::futures::Futures;
use comparison::inputs::Inputs;
use comparison::library::{rows_of, table_of, told, told_checked};
use comparison::tally::Place;
use comparison::work::Work;
use evaluator::told::Told;
use evaluator::ways::{Ways, list_ways};
use evaluator::world::World;
use logs::any_log::add_all;
use logs::changes::ChangeLog;
use logs::mask::MaskLog;
use logs::sheet::Sheet;
use logs::traits::Readable;
use mtl::ruling::Claim;
use mtl::table::Table;
use std::alloc::{AllocError, Global};
use writer::settle::settle;

#[derive(Drop)]
pub(crate) struct Bench<'a> {
    pub(crate) heap: Global,
    trial: u32,
    pub(crate) world: World,
    // All ways, those whose condition is not met too.
    pub(crate) near: Ways,
    pub(crate) futures: Futures,
    table: Table,
    pub(crate) masks: MaskLog,
    pub(crate) changes: ChangeLog,
    pub(crate) sheet: Sheet<'a>,
}

impl<'a> Bench<'a> {
    // The bench of a trial; the sheet has the same rows.
    pub(crate) fn of(
        heap: Global,
        trial: u32,
        inputs: &Inputs,
        sheet: Sheet<'a>,
        dice: &mut Dice,
    ) -> Result<Bench<'a>, AllocError> {
        let rules = inputs.rules.as_slice();
        let moments = inputs.rows.as_slice();
        let rows = rows_of(heap, moments)?;
        let mut masks = MaskLog::new();
        let mut changes = ChangeLog::new();
        let _ = add_all(&mut masks, rows.as_slice());
        let _ = add_all(&mut changes, rows.as_slice());
        Ok(Bench {
            heap,
            trial,
            world: World::of(heap, rules, moments)?,
            near: list_ways(heap, rules, moments, true)?,
            futures: Futures::of(heap, dice, rules, moments, 3)?,
            table: table_of(rules),
            masks,
            changes,
            sheet,
        })
    }

    // A line and a row of this table and log.
    pub(crate) fn place(&self, line: usize, row: usize) -> Place {
        let trial = self.trial;
        Place { trial, line, row }
    }

    // Check, on one of the logs.
    pub(crate) fn check<L: Readable>(
        &self,
        log: &L,
        certificate: &[u8],
        stack: &mut [Claim],
    ) -> Told {
        told_checked(check(&self.table, log, certificate, stack))
    }

    // Settle, on one of the logs.
    pub(crate) fn settle<L: Readable>(
        &self,
        log: &L,
        line: usize,
        row: usize,
        work: &mut Work,
        out: &mut [u8],
    ) -> Told {
        let sizes = &mut work.sizes;
        let plan = &mut work.plan;
        told(settle(&self.table, log, line, row, sizes, plan, out))
    }
}
