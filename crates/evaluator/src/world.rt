// A table and rows with everything that the evaluator finds out about them.
use crate::reach::Reach;
use crate::reading::Reader;
use crate::rules::{Moment, Rule, Statement};
use crate::shortest::Certificates;
use crate::told::{Answer, Question, Told};
use crate::ways::{Ways, list_ways};
use std::alloc::{AllocError, Global};

#[derive(Drop)]
pub struct World {
    pub rules: Vec<Rule>,
    pub rows: Vec<Moment>,
    pub ways: Ways,
    pub certificates: Certificates,
    pub reach: Reach,
}

impl World {
    // Finds out everything about a table and rows.
    pub fn of(heap: Global, rules: &[Rule], rows: &[Moment]) -> Result<World, AllocError> {
        let ways = list_ways(heap, rules, rows, false)?;
        let certificates = Certificates::of(heap, &ways, rules.len(), rows.len())?;
        Ok(World {
            rules: Vec::from_slice(heap, rules)?,
            rows: Vec::from_slice(heap, rows)?,
            ways,
            certificates,
            reach: Reach::of(heap, rules, rows)?,
        })
    }

    // What Check is to tell.
    pub fn check(
        &self,
        heap: Global,
        certificate: &[u8],
        places: usize,
    ) -> Result<Told, AllocError> {
        let reader = Reader {
            rules: self.rules.as_slice(),
            rows: self.rows.len(),
            ways: &self.ways,
        };
        reader.read(heap, certificate, places)
    }

    // What Settle is to tell, with so many cells in each work buffer and so many bytes of output.
    pub fn settle(&self, line: usize, row: usize, cells: usize, room: usize) -> Told {
        Question::LineIsThere.ask(line < self.rules.len())?;
        Question::RowIsThere.ask(row < self.rows.len())?;
        Question::CellsAreEnough.ask(cells >= 8192)?;
        let size = |held| self.certificates.size(Statement { line, row, held });
        let (held, nodes) = size(true)
            .map(|nodes| (true, nodes))
            .or(size(false).map(|nodes| (false, nodes)))
            .ok_or(Question::IsRuled)?;
        Question::SizeIsSmall.ask(nodes <= 4096)?;
        Question::OutputHasRoom.ask(nodes.saturating_mul(6) <= room as u64)?;
        Ok(Answer::Ruled { held, nodes })
    }
}
