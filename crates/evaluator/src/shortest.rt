// The least certificates: the sizes of all ways compared, and the bytes of the one chosen.
use crate::rules::Statement;
use crate::shapes::Shape;
use crate::ways::{Way, Ways};
use std::alloc::{AllocError, Global};

// The least size of a claim, and the way by which it is reached.
#[derive(Clone, Copy)]
pub struct Least {
    pub nodes: u64,
    pub way: Way,
}

// The longest certificate whose bytes are kept.
const LONGEST: u64 = 4096;

// What is known of every claim, in the order of lines, rows and rulings: so a claim's place in both lists is worked out, not looked for.
// The bytes are empty where there is no certificate, or one that is too long.
#[derive(Drop)]
pub struct Certificates {
    pub rows: usize,
    pub least: Vec<Option<Least>>,
    pub bytes: Vec<Vec<u8>>,
}

impl Certificates {
    // Where a claim stands among all claims: held before not held.
    fn number_of(&self, claim: Statement) -> Option<usize> {
        if claim.row >= self.rows {
            return None;
        }
        let place = claim.line.checked_mul(self.rows)?.checked_add(claim.row)?;
        place.checked_mul(2)?.checked_add(usize::from(!claim.held))
    }

    // The least size of a claim, if it has a certificate.
    pub fn size(&self, claim: Statement) -> Option<u64> {
        let least = *self.least.get(self.number_of(claim)?)?;
        least.map(|least| least.nodes)
    }

    // The bytes of the chosen certificate, if there is one of at most 4,096 nodes.
    pub fn bytes(&self, claim: Statement) -> Option<&[u8]> {
        let bytes = self.bytes.get(self.number_of(claim)?)?.as_slice();
        Some(bytes).filter(|bytes| !bytes.is_empty())
    }

    // The size of a way: its node, and the least of each child.
    fn size_by(&self, children: &[Statement]) -> Option<u64> {
        children.iter().try_fold(
            1u64,
            |nodes, child| Some(nodes.saturating_add(self.size(*child)?)),
        )
    }

    // The bytes of a certificate by a way: the children's, one after another, and the node's own. None if a child has no bytes.
    pub fn by_way(
        &self,
        heap: Global,
        ways: &Ways,
        way: Way,
    ) -> Result<Option<Vec<u8>>, AllocError> {
        let mut bytes = Vec::new(heap);
        let children = ways.children_of(way);
        for child in children {
            let Some(part) = self.bytes(*child) else {
                return Ok(None);
            };
            bytes.extend_from_slice(part)?;
        }
        // A node is packed here and nowhere else on this side, so no From stands apart for it.
        let [.., line] = way.line.to_be_bytes();
        let [.., rule] = way.rule.to_be_bytes();
        let [.., row_high, row_low] = way.row.to_be_bytes();
        let [.., count_high, count_low] = children.len().to_be_bytes();
        bytes.extend_from_slice(&[line, rule, row_high, row_low, count_high, count_low])?;
        Ok(Some(bytes))
    }

    // The shortest of a place's ways by which it is ruled held, or not held: among equals the first.
    fn choose(&self, ways: &Ways, place: usize, held: bool) -> Option<Least> {
        let sized = |way: &Way| {
            let nodes = self.size_by(ways.children_of(*way))?;
            Some(Least { nodes, way: *way })
        };
        ways.at(place)
            .iter()
            .filter(|way| Shape::of(way.rule).is_some_and(|shape| shape.held == held))
            .filter_map(sized)
            .min_by_key(|least| least.nodes)
    }

    // Takes what was chosen for the next claim, with its bytes if they are not too many.
    fn push(&mut self, heap: Global, ways: &Ways, least: Option<Least>) -> Result<(), AllocError> {
        let bytes = match least {
            Some(least) if least.nodes <= LONGEST => self.by_way(heap, ways, least.way)?,
            _ => None,
        };
        self.least.push(least)?;
        self.bytes.push(bytes.unwrap_or(Vec::new(heap)))?;
        Ok(())
    }

    // Compares all ways at every line and row. Children are of earlier lines, whose ways come first.
    pub fn of(
        heap: Global,
        ways: &Ways,
        lines: usize,
        rows: usize,
    ) -> Result<Certificates, AllocError> {
        let mut found = Certificates {
            rows,
            least: Vec::new(heap),
            bytes: Vec::new(heap),
        };
        for place in 0..lines.saturating_mul(rows) {
            for held in [true, false] {
                let least = found.choose(ways, place, held);
                found.push(heap, ways, least)?;
            }
        }
        Ok(found)
    }
}
