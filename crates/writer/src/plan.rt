// A filled plan, with the table and the rows that it was filled from.
ghost use Rattle.mtl.specs.Tables.{lines_of};
ghost use Rattle.writer.specs.Written.{Planned};

use crate::rows::Rows;
use mtl::table::Table;

// The codes tell for each claim the rule, and the row j, of a shortest certificate.
#[derive(Clone, Copy)]
pub struct Plan<'a> {
    pub table: &'a Table,
    pub rows: Rows<'a>,
    pub codes: &'a [u16],
    ghost filled: { Planned (lines_of table.now) rows.all.now codes.now },
}
