// The rows of the trials.
use mtl::row::{Row, Time};
use std::alloc::{AllocError, Global};
use std::array;

fn row(time: Time, marks: u32) -> Row {
    Row { time, marks }
}

pub(crate) fn repeated() -> [Row; 5] {
    [
        row(0, 0),
        row(0, 3),
        row(7, 0x80000001),
        row(7, 0x80000001),
        row(7, 0),
    ]
}

pub(crate) fn latest() -> [Row; 3] {
    [
        row(4294967294, 1),
        row(4294967295, 2),
        row(4294967295, 0xffffffff),
    ]
}

pub(crate) fn falling() -> [Row; 3] {
    [row(5, 1), row(6, 2), row(5, 4)]
}

// One row more than a log can hold, with two changes from row to row.
pub(crate) fn many() -> [Row; 129] {
    array::from_fn(|i| row(3 * i as Time, 1 << (i % 32)))
}

// Sixteen rows of 32 changes each, and one of a single change.
pub(crate) fn busy() -> [Row; 17] {
    array::from_fn(|i| match i {
        16 => row(9, 1),
        _ if i % 2 == 0 => row(9, 0xffffffff),
        _ => row(9, 0),
    })
}

// The bytes of a sheet with these rows, written out here, since the library's order is what is tried. `comparison` has this too: no
// crate below both has a heap.
pub(crate) fn sheet_bytes(heap: Global, rows: &[Row]) -> Result<Vec<u8>, AllocError> {
    let mut bytes = Vec::new(heap);
    for row in rows {
        bytes.extend_from_slice(&row.time.to_be_bytes())?;
        bytes.extend_from_slice(&row.marks.to_be_bytes())?;
    }
    Ok(bytes)
}
