// A draft holds the rule lines entered so far; closing it makes a table.
ghost use Rattle.std.specs.Prelude.{◌≡◌, ◌≤◌, [], length};
ghost use Rattle.mtl.specs.Lines.{WellFormed};

use crate::line::{Fields, Kind, Line, LineFault, Window};
use crate::table::Table;
use arrayvec::ArrayVec;

#[derive(Drop)]
pub struct Draft {
    lines: ArrayVec<Line, 32>,
    ghost few: { length lines.items ≤ 32 },
    ghost formed: { WellFormed lines.items },
}

impl Draft {
    ghost use Rattle.mtl.specs.Entering.{told, operand_in, operands_in, Makes, enter_answer, lines_after};
    ghost use Rattle.mtl.specs.Tables.{entered, lines_of};

    // A draft with no line.
    pub fn new() -> Draft
        ensures { entered result ≡ [] }
    {
        Draft {
            lines: ArrayVec::new(),
        }
    }

    // How many lines were entered.
    pub fn len(&self) -> usize
        ensures { result ≡ length (entered self.now) }
    {
        self.lines.len()
    }

    // Enters the next line, or tells the first question that is answered no. By its letter, a wanted form (docs/DECISIONS.md).
    #[tactic(auto, using(crate::proofs::Entered::entered_fits))]
    pub fn enter(&mut self, letter: char, fields: Fields) -> Result<(), LineFault>
        ensures answer { told result ≡ enter_answer (entered self.old) letter fields }
        ensures lines { entered self.new ≡ lines_after (entered self.old) letter fields }
    {
        if self.lines.is_full() {
            return Err(LineFault::TableFull);
        }
        let kind = Kind::try_from(letter)?;
        let line = self.line_of(kind, &fields)?;
        self.lines.push(line);
        Ok(())
    }

    // The table of the lines entered.
    pub fn close(self) -> Table
        ensures { lines_of result ≡ entered self }
    {
        Table { lines: self.lines }
    }

    // The next line, of a kind.
    fn line_of(&self, kind: Kind, fields: &Fields) -> Result<Line, LineFault>
        ensures { Makes result (length (entered self.now)) kind fields.now }
    {
        match kind {
            Kind::Mark => fields.mark(),
            Kind::Not => Ok(Line::Not(self.operand(fields.left)?)),
            Kind::And => {
                let (left, right) = self.operands(fields)?;
                Ok(Line::And(left, right))
            }
            Kind::Or => {
                let (left, right) = self.operands(fields)?;
                Ok(Line::Or(left, right))
            }
            Kind::Previous => {
                let left = self.operand(fields.left)?;
                Ok(Line::Previous(fields.window()?, left))
            }
            Kind::Next => {
                let left = self.operand(fields.left)?;
                Ok(Line::Next(fields.window()?, left))
            }
            Kind::Since => {
                let (left, right) = self.operands(fields)?;
                Ok(Line::Since(fields.window()?, left, right))
            }
            Kind::Until => {
                let (left, right) = self.operands(fields)?;
                Ok(Line::Until(fields.ended_window()?, left, right))
            }
        }
    }

    // An operand is the number of an earlier line.
    fn operand(&self, number: u32) -> Result<u8, LineFault>
        ensures { result ≡ operand_in number (length (entered self.now)) }
    {
        if (number as usize) < self.lines.len() {
            Ok(number as u8)
        } else {
            Err(LineFault::NotEarlier)
        }
    }

    // Both operands are.
    fn operands(&self, fields: &Fields) -> Result<(u8, u8), LineFault>
        ensures { result ≡ operands_in fields.now (length (entered self.now)) }
    {
        let left = self.operand(fields.left)?;
        let right = self.operand(fields.right)?;
        Ok((left, right))
    }
}

impl Fields {
    ghost use Rattle.mtl.specs.Entering.{mark_in, window_in, ended_window_in};

    // The line of a mark.
    fn mark(&self) -> Result<Line, LineFault>
        ensures { result ≡ mark_in self.now.left }
    {
        if self.left < 32 {
            Ok(Line::Mark(self.left as u8))
        } else {
            Err(LineFault::NoSuchMark)
        }
    }

    fn window(&self) -> Result<Window, LineFault>
        ensures { result ≡ window_in self.now }
    {
        if self.to.is_some_and(|end| end < self.from) {
            return Err(LineFault::WindowReversed);
        }
        Ok(Window {
            from: self.from,
            to: self.to,
        })
    }

    // The window of an until, which has an end.
    fn ended_window(&self) -> Result<Window, LineFault>
        ensures { result ≡ ended_window_in self.now }
    {
        let window = self.window()?;
        if window.to.is_none() {
            return Err(LineFault::UntilEndless);
        }
        Ok(window)
    }
}
