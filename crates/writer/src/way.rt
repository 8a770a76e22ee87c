// A way to rule a claim: a rule, and the children that it takes, in two runs of rows.
ghost use Rattle.std.specs.Prelude.{◌≡◌, ◌≤◌, [], ◌∷◌, ◌++◌, length};

// The rows of a line from one up to, and without, another; none is past row 255.
// No Range: that is not Copy, and a way is copied.
#[derive(Clone, Copy, Drop)]
pub struct Run {
    pub line: u8,
    pub from: usize,
    pub to: usize,
    ghost near: { to ≤ 256 },
}

// A rule with its children: those of the first run, then those of the rest.
#[derive(Clone, Copy, Drop)]
pub struct Way {
    pub rule: u8,
    pub first: Run,
    pub rest: Run,
}

// No row at all.
const NOWHERE: Run = Run {
    line: 0,
    from: 0,
    to: 0,
};

impl Run {
    ghost use Rattle.mtl.specs.Claims.{claim};
    ghost use Rattle.mtl.specs.declared.ruling.Ruling.{Ruling};
    ghost use Rattle.writer.specs.Ways.{claims_of};

    // One row of a line.
    pub(crate) fn at(line: u8, row: usize) -> Run
        requires { row ≤ 255 }
        ensures { (q : Ruling) → claims_of q result ≡ claim line row q ∷ [] }
    {
        Run {
            line,
            from: row,
            to: row + 1,
        }
    }
}

impl Way {
    ghost use Rattle.mtl.specs.declared.ruling.Ruling.{Ruling};
    ghost use Rattle.writer.specs.Ways.{claims_of, kids_of, Makes};

    // A rule without children.
    pub(crate) fn leaf(rule: u8) -> Way
        ensures { Makes result rule (λ _. []) }
    {
        Way {
            rule,
            first: NOWHERE,
            rest: NOWHERE,
        }
    }

    // A rule with one run of children.
    pub(crate) fn by(rule: u8, rest: Run) -> Way
        ensures { Makes result rule (λ q. claims_of q rest) }
    {
        Way {
            rule,
            first: NOWHERE,
            rest,
        }
    }

    // A rule with two runs.
    pub(crate) fn by_two(rule: u8, first: Run, rest: Run) -> Way
        ensures { Makes result rule (λ q. claims_of q first ++ claims_of q rest) }
    {
        Way { rule, first, rest }
    }

    // How many children a way has.
    pub(crate) fn count(self) -> usize
        ensures size { (q : Ruling) → result ≡ length (kids_of q self) }
        ensures small { result ≤ 512 }
    {
        self.first.to.saturating_sub(self.first.from) + self.rest.to.saturating_sub(self.rest.from)
    }
}
