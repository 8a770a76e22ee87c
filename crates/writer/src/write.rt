// Writing the shortest certificate of a claim in postfix order, from the filled plan: two writers that call each other at every not,
// a wanted form (docs/DECISIONS.md).
// The output is lent and keeps its length, so a writer is told where to begin and tells where it ends.
ghost use Rattle.std.specs.Prelude.{◌≡◌, ℕ, ◌+◌, ◌≤◌, length};
ghost use Rattle.mtl.specs.Claims.{Held as held_at, Broken as broken_at};
ghost use Rattle.mtl.specs.Tables.{lines_of};
ghost use Rattle.writer.specs.Written.{Wrote, Short, cert_bytes};

use crate::cells::cell;
use crate::nodes::{node_of, put_node};
use crate::offer::Pick;
use crate::plan::Plan;
use crate::rows::Spot;
use crate::ways::{broken_way, held_way, line_at};
use mtl::line::Line;
use mtl::ruling::Ruling;

// Writes the certificate of a held ruling, and tells where it ends.
#[cycle(write_broken_write_held)]
pub(crate) fn write_held(plan: Plan<'_>, line: u8, row: usize, out: &mut [u8], at: usize) -> usize
    requires short { Short (lines_of plan.table.now) plan.rows.all.now (held_at line row) }
    requires room { at + length (cert_bytes (lines_of plan.table.now) plan.rows.all.now (held_at line row)) ≤ length out.old }
    ensures { Wrote out.old out.new at result (cert_bytes (lines_of plan.entry.table.now) plan.entry.rows.all.now (held_at line row)) }
{
    let found = line_at(plan.table, line);
    if let Line::Not(left) = found {
        let end = write_broken(plan, left, row, out, at);
        return put_node(out, end, node_of(line, 3, row, 1));
    }
    let spot = Spot {
        rows: plan.rows,
        row,
    };
    let way = held_way(
        spot,
        found,
        Pick::from(cell(plan.codes, line, row, Ruling::Held)),
    );
    let mut end = at;
    for run in [way.first, way.rest] {
        for j in run.from..run.to {
            end = write_held(plan, run.line, j, out, end);
        }
    }
    put_node(out, end, node_of(line, way.rule, row, way.count()))
}

// Writes the certificate of a broken ruling, and tells where it ends.
#[cycle(write_broken_write_held)]
pub(crate) fn write_broken(plan: Plan<'_>, line: u8, row: usize, out: &mut [u8], at: usize) -> usize
    requires short { Short (lines_of plan.table.now) plan.rows.all.now (broken_at line row) }
    requires room { at + length (cert_bytes (lines_of plan.table.now) plan.rows.all.now (broken_at line row)) ≤ length out.old }
    ensures { Wrote out.old out.new at result (cert_bytes (lines_of plan.entry.table.now) plan.entry.rows.all.now (broken_at line row)) }
{
    let found = line_at(plan.table, line);
    if let Line::Not(left) = found {
        let end = write_held(plan, left, row, out, at);
        return put_node(out, end, node_of(line, 4, row, 1));
    }
    let spot = Spot {
        rows: plan.rows,
        row,
    };
    let way = broken_way(
        spot,
        found,
        Pick::from(cell(plan.codes, line, row, Ruling::Broken)),
    );
    let mut end = at;
    for run in [way.first, way.rest] {
        for j in run.from..run.to {
            end = write_broken(plan, run.line, j, out, end);
        }
    }
    put_node(out, end, node_of(line, way.rule, row, way.count()))
}
