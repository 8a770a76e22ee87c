// Rulings, claims, and the nodes of certificates.
ghost use Rattle.std.specs.Prelude.{Some};

use std::fmt;

#[derive(Clone, Copy, Debug, PartialEq, Eq)]
pub enum Ruling {
    Held,
    Broken,
}

impl fmt::Display for Ruling {
    ghost use Rattle.mtl.specs.Claims.{ruling_word};

    ghost output = { λ r. Some (ruling_word r) };

    fn fmt<W: fmt::Write>(&self, f: &mut fmt::Formatter<W>) -> fmt::Result {
        f.write_str(match self {
            Ruling::Held => "held",
            Ruling::Broken => "broken",
        })
    }
}

// The ruling of a line at a row.
#[derive(Clone, Copy, Debug, PartialEq, Eq)]
pub struct Claim {
    pub line: u8,
    pub row: u16,
    pub ruling: Ruling,
}

impl Claim {
    // What a place of a stack holds before it is used.
    pub const BLANK: Claim = Claim {
        line: 0,
        row: 0,
        ruling: Ruling::Held,
    };
}

// A node of a certificate: a line at a row follows by a rule from so many children.
// The rule goes by its number, a wanted form (docs/DECISIONS.md).
#[derive(Clone, Copy, Debug, PartialEq, Eq)]
pub struct Node {
    pub line: u8,
    pub rule: u8,
    pub row: u16,
    pub count: u16,
}

// The six bytes of a node, the higher byte first.
impl From<Node> for [u8; 6] {
    ghost use Rattle.std.specs.Prelude.{◌≡◌, [], ◌∷◌};
    ghost use Rattle.mtl.specs.Bytes.{bytes as bytes_of};

    ghost from_gives = { λ node bytes. bytes ≡ bytes_of (node ∷ []) };

    fn from(node: Node) -> [u8; 6] {
        let [row1, row0] = node.row.to_be_bytes();
        let [count1, count0] = node.count.to_be_bytes();
        [node.line, node.rule, row1, row0, count1, count0]
    }
}

// What a line at a row is settled to: its ruling, and the nodes of its shortest certificate.
#[derive(Clone, Copy, Debug, PartialEq, Eq)]
pub struct Settled {
    pub ruling: Ruling,
    pub size: u16,
}
