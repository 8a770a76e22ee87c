// The rows of a log in memory, and a row among them.
ghost use Rattle.std.specs.Prelude.{ℕ, ◌<◌, ◌≤◌, length};
ghost use Rattle.mtl.specs.Rows.{NeverFalls};

use mtl::row::Row;

// At most 128 rows, whose times never fall.
#[derive(Clone, Copy)]
pub struct Rows<'a> {
    pub all: &'a [Row],
    ghost few: { length all.now ≤ 128 },
    ghost rising: { NeverFalls all.now },
}

// A row of the log.
#[derive(Clone, Copy)]
pub struct Spot<'a> {
    pub rows: Rows<'a>,
    pub row: usize,
    ghost there: { row < length rows.all.now },
}
