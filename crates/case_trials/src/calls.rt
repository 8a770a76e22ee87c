// The calls that are tried. Mark 0 is the clamp, and mark 1 the heel.
use mtl::row::Row;
use replays::call::Call;

fn add<'a>(time: u32, marks: u32) -> Call<'a> {
    Call::Add(Row { time, marks })
}

fn settle<'a>(row: usize) -> Call<'a> {
    Call::Settle { line: 2, row }
}

fn show<'a>(row: usize) -> Call<'a> {
    Call::Show { line: 2, row }
}

// Rulings given while rows still come; a certificate presented too early, then twice, with a false one between.
pub(crate) fn since_calls<'a>(certificate: &'a [u8], false_one: &'a [u8]) -> [Call<'a>; 24] {
    [
        show(0),
        add(0, 1),
        show(0),
        settle(0),
        show(0),
        add(2, 3),
        settle(1),
        Call::Present(certificate),
        add(4, 1),
        add(4, 0),
        Call::Present(certificate),
        show(3),
        Call::Present(false_one),
        Call::Present(certificate),
        add(3, 0),
        settle(2),
        add(9, 1),
        settle(4),
        show(0),
        show(1),
        show(2),
        show(3),
        show(5),
        Call::Show { line: 3, row: 0 },
    ]
}

// No row lies inside the window: one node.
pub(crate) fn far_calls<'a>() -> [Call<'a>; 4] {
    [add(0, 1), add(10, 1), settle(1), show(1)]
}

// The log begins inside the window's start: one node, but not by rule 22.
pub(crate) fn early_calls<'a>(by_22: &'a [u8]) -> [Call<'a>; 6] {
    [
        add(0, 1),
        add(2, 1),
        Call::Present(by_22),
        show(1),
        settle(1),
        show(1),
    ]
}

// A row at exactly the window's end leaves the until open; a later one closes it.
pub(crate) fn closed_calls<'a>() -> [Call<'a>; 7] {
    [
        add(0, 1),
        add(5, 1),
        settle(0),
        show(0),
        add(6, 1),
        settle(0),
        show(0),
    ]
}

// The clamp is off at the window's end; a later row then allows a shorter certificate of the same ruling.
pub(crate) fn left_calls<'a>() -> [Call<'a>; 6] {
    [
        add(0, 1),
        add(5, 0),
        settle(0),
        add(6, 1),
        settle(0),
        show(0),
    ]
}
