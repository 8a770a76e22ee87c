// The rules text.
ghost use Rattle.std.specs.Prelude.{◌≡◌, codes};
ghost use Rattle.std.specs.Str.{bytes_eq};
ghost use Rattle.mtl.specs.Tables.{entered};
ghost use Rattle.fields.specs.Cuts.{fields_of};
ghost use Rattle.texts.specs.Faults.{told_by};
ghost use Rattle.texts.specs.Rules.{read_rule, read_rules};

use crate::fault::TextFault;
use crate::forms::{entry_of, six_fields};
use crate::lines::right_lines;
use fields::shape::has_fields;
use mtl::draft::Draft;

// Reads one line of values and enters it.
fn read_line(text: &[u8], line: usize, draft: &mut Draft) -> Result<(), TextFault>
    ensures answer { told_by result ≡ (read_rule line (entered draft.old) (fields_of text.now)).refused }
    ensures lines { entered draft.new ≡ (read_rule line (entered draft.old) (fields_of text.now)).entries }
{
    if !has_fields(text, 6) {
        return Err(TextFault::WrongFields { line });
    }
    let fields = six_fields(text, line);
    let next = draft.len() as u32;
    let entry = entry_of(&fields, next)?;
    draft
        .enter(entry.letter, entry.fields)
        .map_err(|fault| TextFault::Table { line, fault })
}

// Whether a line has the names of the fields.
fn names_fields(line: &[u8]) -> bool
    ensures { result ≡ bytes_eq line.now (codes "line kind from to left right") }
{
    line == b"line kind from to left right".as_slice()
}

// Reads a rules text into a draft. The lines before a faulty one stay entered.
pub fn read_rules(text: &[u8], draft: &mut Draft) -> Result<(), TextFault>
    ensures answer { told_by result ≡ (read_rules text.now (entered draft.old)).refused }
    ensures lines { entered draft.new ≡ (read_rules text.now (entered draft.old)).entries }
{
    let mut lines = right_lines(text)?.enumerate();
    if !lines.next().is_some_and(|(_, names)| names_fields(names)) {
        return Err(TextFault::WrongNames);
    }
    for (i, line) in lines {
        read_line(line, i + 1, draft)?;
    }
    Ok(())
}
