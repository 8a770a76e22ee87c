// From a cell of the plan to the way that it stands for.
ghost use Rattle.std.specs.Prelude.{◌≡◌, None};
ghost use Rattle.mtl.specs.Forms.{forms};
ghost use Rattle.mtl.specs.Lines.{line_at};
ghost use Rattle.mtl.specs.Tables.{lines_of};
ghost use Rattle.mtl.specs.declared.line.Line.TheVariants.{Since as since, Until as until};
ghost use Rattle.mtl.specs.declared.ruling.Ruling.TheVariants.{Held as held, Broken as broken};
ghost use Rattle.writer.specs.Choice.{code_of};
ghost use Rattle.writer.specs.Ways.{Takes, neg_of};

use crate::offer::Pick;
use crate::rows::Spot;
use crate::way::{Run, Way};
use mtl::line::{Line, Window};
use mtl::table::Table;

// A line of the table.
pub(crate) fn line_at(table: &Table, line: u8) -> Line
    ensures { result ≡ line_at (lines_of table.now) line }
{
    table.line(line as usize).unwrap_or_default()
}

// The way to a held ruling; its children are held too, but for a not. The rules for a broken one are others, and are matched below.
pub(crate) fn held_way(spot: Spot<'_>, line: Line, pick: Pick) -> Way
    ensures { neg_of line ≡ None → Takes result held (code_of pick) (forms spot.entry.rows.all.now spot.entry.row line) }
{
    let row = spot.row;
    let rule = pick.rule;
    let j = pick.row as usize;
    match line {
        Line::Mark(_) => Way::leaf(rule),
        Line::Not(left) => Way::by(rule, Run::at(left, row)),
        Line::And(left, right) => Way::by_two(rule, Run::at(left, row), Run::at(right, row)),
        Line::Or(left, right) => match rule {
            8 => Way::by(rule, Run::at(left, row)),
            _ => Way::by(rule, Run::at(right, row)),
        },
        Line::Previous(_, left) => Way::by(rule, Run::at(left, row.saturating_sub(1))),
        Line::Next(_, left) => Way::by(rule, Run::at(left, row + 1)),
        Line::Since(_, left, right) => {
            let others = Run {
                line: left,
                from: j + 1,
                to: row + 1,
            };
            Way::by_two(rule, Run::at(right, j), others)
        }
        Line::Until(_, left, right) => {
            let others = Run {
                line: left,
                from: row,
                to: j,
            };
            Way::by_two(rule, Run::at(right, j), others)
        }
    }
}

fn since_way(spot: Spot<'_>, window: Window, left: u8, right: u8, pick: Pick) -> Way
    ensures { Takes result broken (code_of pick) (forms spot.entry.rows.all.now spot.entry.row (since window left right)) }
{
    let rule = pick.rule;
    let j = pick.row as usize;
    let near = spot.first_near(window);
    match rule {
        21 => {
            let others = Run {
                line: right,
                from: j,
                to: near,
            };
            Way::by_two(rule, Run::at(left, j), others)
        }
        22 => {
            let all = Run {
                line: right,
                from: spot.first_within(window),
                to: near,
            };
            Way::by(rule, all)
        }
        _ => Way::leaf(rule),
    }
}

fn until_way(spot: Spot<'_>, window: Window, left: u8, right: u8, pick: Pick) -> Way
    ensures { Takes result broken (code_of pick) (forms spot.entry.rows.all.now spot.entry.row (until window left right)) }
{
    let rule = pick.rule;
    let j = pick.row as usize;
    let far = spot.first_far(window);
    match rule {
        25 => {
            let others = Run {
                line: right,
                from: far,
                to: j + 1,
            };
            Way::by_two(rule, Run::at(left, j), others)
        }
        _ => {
            let all = Run {
                line: right,
                from: far,
                to: spot.end_within(window),
            };
            Way::by(rule, all)
        }
    }
}

// The way to a broken ruling; its children are broken too, but for a not.
pub(crate) fn broken_way(spot: Spot<'_>, line: Line, pick: Pick) -> Way
    ensures { neg_of line ≡ None → Takes result broken (code_of pick) (forms spot.entry.rows.all.now spot.entry.row line) }
{
    let row = spot.row;
    let rule = pick.rule;
    match line {
        Line::Mark(_) => Way::leaf(rule),
        Line::Not(left) => Way::by(rule, Run::at(left, row)),
        Line::And(left, right) => match rule {
            6 => Way::by(rule, Run::at(left, row)),
            _ => Way::by(rule, Run::at(right, row)),
        },
        Line::Or(left, right) => Way::by_two(rule, Run::at(left, row), Run::at(right, row)),
        Line::Previous(_, left) => match rule {
            12 => Way::by(rule, Run::at(left, row.saturating_sub(1))),
            _ => Way::leaf(rule),
        },
        Line::Next(_, left) => match rule {
            17 => Way::by(rule, Run::at(left, row + 1)),
            _ => Way::leaf(rule),
        },
        Line::Since(window, left, right) => since_way(spot, window, left, right, pick),
        Line::Until(window, left, right) => until_way(spot, window, left, right, pick),
    }
}
