// The calls that `c_api_c` exports to C. Each reads its texts anew, and keeps nothing.
ghost use Rattle.std.specs.Prelude.{◌≡◌, length};
ghost use Rattle.c_api.specs.Answers.{read_rules_returns, read_log_returns, check_returns, settle_returns};
ghost use Rattle.c_api.specs.Meanings.{ReadMeans, CheckMeans, SettleMeans};
ghost use Rattle.c_api.specs.Outputs.{settle_bytes, overwritten};
ghost use Rattle.c_api.specs.Readings.{rules_read, log_read};

use crate::answer::{CheckAnswer, ReadAnswer, SettleAnswer};
use crate::judging::{checked, settled};
use crate::refusal::Refusal;
use logs::mask::MaskLog;
use logs::traits::Readable;
use mtl::draft::Draft;
use texts::log::read_log;
use texts::rules::read_rules;

// Reads a rules text, and tells how many lines its table has. It and the next stay two: C calls each by its own name, and what
// reads, counts and refuses differs.
pub fn sanqizhet_read_rules_nonnull(text: &[u8]) -> ReadAnswer
    ensures answer { result ≡ read_rules_returns text.now }
    ensures says { ReadMeans (rules_read text.now) result }
{
    let mut draft = Draft::new();
    let read = read_rules(text, &mut draft).map_err(Refusal::Rules);
    ReadAnswer {
        refusal: read.into(),
        count: draft.len(),
    }
}

// Reads a log text, and tells how many rows it has.
pub fn sanqizhet_read_log_nonnull(text: &[u8]) -> ReadAnswer
    ensures answer { result ≡ read_log_returns text.now }
    ensures says { ReadMeans (log_read text.now) result }
{
    let mut log = MaskLog::new();
    let read = read_log(text, &mut log).map_err(Refusal::Log);
    ReadAnswer {
        refusal: read.into(),
        count: log.len(),
    }
}

// Checks a certificate on the table and the log of two texts, and tells the claim that it proves.
pub fn sanqizhet_check_nonnull(rules: &[u8], log: &[u8], certificate: &[u8]) -> CheckAnswer
    ensures answer { result ≡ check_returns rules.now log.now certificate.now }
    ensures says { CheckMeans rules.now log.now certificate.now result }
{
    checked(rules, log, certificate).into()
}

// Settles a line at a row of the table and the log of two texts, and writes the shortest certificate
// to the front of the output.
pub fn sanqizhet_settle_nonnull(
    rules: &[u8],
    log: &[u8],
    line: usize,
    row: usize,
    out: &mut [u8],
) -> SettleAnswer
    ensures answer { result ≡ settle_returns rules.now log.now line row (length out.old) }
    ensures written { out.new ≡ overwritten (settle_bytes rules.now log.now line row (length out.old)) out.old }
    ensures says { SettleMeans rules.now log.now line row (length out.old) out.new result }
{
    settled(rules, log, line, row, out).into()
}
