// What the calls answer, in numbers, since a program in C reads them.

// An accepted claim, with question 0; or the question answered no, and the node.
#[repr(C)]
#[derive(Clone, Copy, Default)]
pub struct Checked {
    pub question: u8,
    pub node: usize,
    pub line: u8,
    pub row: u16,
    pub held: bool,
}

// An accepted ruling, with question 0; or the question answered no.
#[repr(C)]
#[derive(Clone, Copy, Default)]
pub struct Settling {
    pub question: u8,
    pub size: u16,
    pub held: bool,
}
