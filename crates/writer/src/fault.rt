// Why a line at a row is not settled.
mod telling;

#[derive(Clone, Copy, Debug, PartialEq, Eq)]
pub enum SettleFault {
    // The table has no line of that number.
    NoSuchLine,
    // The log has no row of that number.
    NoSuchRow,
    // A work buffer has fewer than 8,192 cells.
    BufferShort,
    // There is no certificate, held or broken: the line is open at the row.
    Open,
    // The shortest certificate has more than 4,096 nodes.
    TooLong,
    // The output is shorter than the certificate.
    OutputShort,
}
