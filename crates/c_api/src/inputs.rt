// The two texts, read into a draft and a mask log.
ghost use Rattle.std.specs.Prelude.{◌≡◌};
ghost use Rattle.c_api.specs.Readings.{table_told, rows_told, table_in, rows_in};

use crate::refusal::Refusal;
use logs::mask::MaskLog;
use mtl::draft::Draft;
use mtl::table::Table;
use texts::log::read_log;
use texts::rules::read_rules;

// The table of a rules text.
pub(crate) fn table_of(text: &[u8]) -> Result<Table, Refusal>
    ensures { table_told result ≡ table_in text.now }
{
    let mut draft = Draft::new();
    read_rules(text, &mut draft).map_err(Refusal::Rules)?;
    Ok(draft.close())
}

// The log of a log text.
pub(crate) fn log_of(text: &[u8]) -> Result<MaskLog, Refusal>
    ensures { rows_told result ≡ rows_in text.now }
{
    let mut log = MaskLog::new();
    read_log(text, &mut log).map_err(Refusal::Log)?;
    Ok(log)
}
