// Writing a rule table.
ghost use Rattle.std.specs.Prelude.{◌≡◌, IfOk, string_bytes};
ghost use Rattle.mtl.specs.Tables.{lines_of};
ghost use Rattle.text_writers.specs.RuleTexts.{rules_text};

use crate::rule_line::RuleLine;
use mtl::table::Table;
use std::alloc::{AllocError, Global};
use std::fmt::Write;

// The rules text of a table.
pub fn write_rules(heap: Global, table: &Table) -> Result<String, AllocError>
    ensures { IfOk result (λ s. string_bytes s ≡ rules_text (lines_of table.now)) }
{
    let mut text = String::from_str(heap, "line kind from to left right\n")?;
    for (number, line) in table.lines().iter().enumerate() {
        write!(
            text,
            "{}",
            RuleLine {
                number,
                line: *line
            }
        )?;
    }
    Ok(text)
}
