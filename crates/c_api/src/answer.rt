// What the exported functions answer. What C is told is numbers, a wanted form (docs/DECISIONS.md); where there is nothing to tell, the number is 0.

// Why a call is refused, and where the fault stands.
#[derive(Clone, Copy, Debug, Default, PartialEq, Eq)]
#[repr(C)]
pub struct Refused {
    // The number of the question that is answered no, 1 to 31; 0 if the call is accepted.
    pub number: u32,
    // The text in which the fault stands: 1 the rules, 2 the log.
    pub text: u32,
    // The layer that refuses the text: 1 the text itself, 2 the table, 3 the log.
    pub layer: u32,
    // The line of the text, from 1.
    pub line: usize,
    // The field of the line, from 1.
    pub field: usize,
    // The node of the certificate, from 0.
    pub node: usize,
}

// What reading a text answers.
#[derive(Clone, Copy, Debug, Default, PartialEq, Eq)]
#[repr(C)]
pub struct ReadAnswer {
    pub refusal: Refused,
    // How many lines or rows were read; where the text is refused, those before the fault.
    pub count: usize,
}

// What Check answers: the claim that the certificate proves.
#[derive(Clone, Copy, Debug, Default, PartialEq, Eq)]
#[repr(C)]
pub struct CheckAnswer {
    pub refusal: Refused,
    pub line: u32,
    pub row: u32,
    // 1 held, 2 broken.
    pub ruling: u32,
}

// What Settle answers.
#[derive(Clone, Copy, Debug, Default, PartialEq, Eq)]
#[repr(C)]
pub struct SettleAnswer {
    pub refusal: Refused,
    // 1 held, 2 broken.
    pub ruling: u32,
    // How many nodes the certificate has, six bytes each.
    pub size: u32,
}
