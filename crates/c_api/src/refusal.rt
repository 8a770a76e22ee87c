// Why a call is refused.
use checker::fault::CheckFault;
use texts::fault::TextFault;
use writer::fault::SettleFault;

// The fault, by the part of the call that finds it.
#[derive(Clone, Copy)]
pub enum Refusal {
    // The rules text is refused.
    Rules(TextFault),
    // The log text is refused.
    Log(TextFault),
    // The certificate is refused.
    Check(CheckFault),
    // The line is not settled at the row.
    Settle(SettleFault),
}
