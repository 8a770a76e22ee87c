// The line of one row.
pub mod printing;

use mtl::ruling::Settled;
use writer::fault::SettleFault;

#[derive(Clone, Copy)]
pub struct RowLine {
    pub row: usize,
    pub answer: Result<Settled, SettleFault>,
}
