// The rows of a log, read off it once.
ghost use Rattle.std.specs.Prelude.{◌≡◌};

use arrayvec::ArrayVec;
use logs::traits::{Readable, row_at};
use mtl::row::Row;

// A log has at most 128 rows.
pub(crate) fn rows_of<L: Readable>(log: &L) -> ArrayVec<Row, 128>
    ensures { result.items ≡ L.Readable.rows log.now }
{
    let mut rows = ArrayVec::new();
    for number in 0..log.len() {
        rows.push(row_at(log, number));
    }
    rows
}
