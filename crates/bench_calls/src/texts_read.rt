// The two texts, as far as they can be read.
ghost use Rattle.std.specs.Prelude.{◌≡◌};
ghost use Rattle.logs.specs.contracts.mask.MaskLogReadable.TheImpl.{ghosts as MaskRows};
ghost use Rattle.mtl.specs.Tables.{lines_of};
ghost use Rattle.bench_calls.specs.Texts.{lines_in, rows_in};

use logs::mask::MaskLog;
use mtl::draft::Draft;
use mtl::table::Table;
use texts::log::read_log;
use texts::rules::read_rules;

// The lines before the first fault, as a table.
pub(crate) fn table_of(text: &[u8]) -> Table
    ensures { lines_of result ≡ lines_in text.now }
{
    let mut draft = Draft::new();
    let _ = read_rules(text, &mut draft);
    draft.close()
}

// The rows before the first fault.
pub(crate) fn log_of(text: &[u8]) -> MaskLog
    ensures { MaskRows.rows result ≡ rows_in text.now }
{
    let mut log = MaskLog::new();
    let _ = read_log(text, &mut log);
    log
}
