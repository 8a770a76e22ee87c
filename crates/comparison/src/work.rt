// The buffers that calls are lent, with known values in them, and what they are to hold afterwards.
use evaluator::rules::Statement;
use evaluator::world::World;
use mtl::ruling::{Claim, Ruling};
use std::alloc::{AllocError, Global};

// What buffers hold before a call.
pub const BYTE: u8 = 165;

const CELL: u16 = 60123;

// How many cells a work buffer needs, and how many more cells or bytes are lent.
pub const NEEDED: usize = 8192;

pub const MORE: usize = 8;

// The two work buffers of Settle.
#[derive(Drop)]
pub struct Work {
    pub sizes: Vec<u16>,
    pub plan: Vec<u16>,
}

// What the cell of this number is to hold.
fn cell(world: &World, number: usize) -> u64 {
    if number >= NEEDED {
        return CELL as u64;
    }
    let line = number / 256;
    let row = number % 256 / 2;
    let held = number % 2 == 0;
    if row >= world.rows.len() || line >= world.rules.len() {
        return 0;
    }
    world
        .certificates
        .size(Statement { line, row, held })
        .map_or(0, |nodes| nodes.min(4097))
}

fn all_as_before(cells: &[u16]) -> bool {
    cells.iter().all(|cell| *cell == CELL)
}

impl Work {
    // Work buffers with so many cells, all the same.
    pub fn new(heap: Global, sizes: usize, plan: usize) -> Result<Work, AllocError> {
        Ok(Work {
            sizes: vec![in heap; CELL; sizes]?,
            plan: vec![in heap; CELL; plan]?,
        })
    }

    // The number of cells that Settle asks about.
    pub fn cells(&self) -> usize {
        self.sizes.len().min(self.plan.len())
    }

    // Whether no cell was touched.
    pub fn is_untouched(&self) -> bool {
        all_as_before(self.sizes.as_slice()) && all_as_before(self.plan.as_slice())
    }

    // Whether the first buffer has the least sizes, and nothing after the cells was touched.
    pub fn is_filled(&self, world: &World) -> bool {
        let mut sizes = self.sizes.iter().enumerate();
        let rest = self.plan.as_slice().get(NEEDED..).unwrap_or(&[]);
        sizes.all(|(number, size)| u64::from(*size) == cell(world, number)) && all_as_before(rest)
    }
}

// Whether the output begins with the bytes and is as it was after them.
pub fn holds(out: &[u8], bytes: &[u8]) -> bool {
    out.strip_prefix(bytes)
        .is_some_and(|rest| rest.iter().all(|byte| *byte == BYTE))
}

// What a stack holds before a call.
pub const BLANK: Claim = Claim {
    line: 255,
    row: 65535,
    ruling: Ruling::Held,
};

// Whether no place of a stack was touched.
pub fn is_blank(stack: &[Claim]) -> bool {
    stack.iter().all(|claim| *claim == BLANK)
}
