// The exported functions.
ghost use Rattle.std.specs.Prelude.{◌≡◌, length};
ghost use Rattle.c_api.specs.Answers.{read_rules_returns, read_log_returns, check_returns, settle_returns};
ghost use Rattle.c_api.specs.Meanings.{ReadMeans, CheckMeans, SettleMeans};
ghost use Rattle.c_api.specs.Outputs.{settle_bytes, overwritten};
ghost use Rattle.c_api.specs.Readings.{rules_read, log_read};

use c_api::answer::{CheckAnswer, ReadAnswer, SettleAnswer};
use c_api::calls;

// Reads a rules text, and tells how many lines its table has.
#[unsafe(no_mangle)]
pub extern "C" fn sanqizhet_read_rules_nonnull(text: &[u8]) -> ReadAnswer
    ensures answer { result ≡ read_rules_returns text.now }
    ensures says { ReadMeans (rules_read text.now) result }
{
    calls::sanqizhet_read_rules_nonnull(text)
}

// Reads a log text, and tells how many rows it has.
#[unsafe(no_mangle)]
pub extern "C" fn sanqizhet_read_log_nonnull(text: &[u8]) -> ReadAnswer
    ensures answer { result ≡ read_log_returns text.now }
    ensures says { ReadMeans (log_read text.now) result }
{
    calls::sanqizhet_read_log_nonnull(text)
}

// Checks a certificate on the table and the log of two texts, and tells the claim that it proves.
#[unsafe(no_mangle)]
pub extern "C" fn sanqizhet_check_nonnull(
    rules: &[u8],
    log: &[u8],
    certificate: &[u8],
) -> CheckAnswer
    ensures answer { result ≡ check_returns rules.now log.now certificate.now }
    ensures says { CheckMeans rules.now log.now certificate.now result }
{
    calls::sanqizhet_check_nonnull(rules, log, certificate)
}

// Settles a line at a row of the table and the log of two texts, and writes the shortest certificate
// to the front of the output.
#[unsafe(no_mangle)]
pub extern "C" fn sanqizhet_settle_nonnull(
    rules: &[u8],
    log: &[u8],
    line: usize,
    row: usize,
    out: &mut [u8],
) -> SettleAnswer
    ensures answer { result ≡ settle_returns rules.now log.now line row (length out.old) }
    ensures written { out.new ≡ overwritten (settle_bytes rules.now log.now line row (length out.old)) out.old }
    ensures says { SettleMeans rules.now log.now line row (length out.old) out.new result }
{
    calls::sanqizhet_settle_nonnull(rules, log, line, row, out)
}
