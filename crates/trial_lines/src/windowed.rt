// A line with a window over marks 0 and 1, and the table that ends with it.
ghost use Rattle.std.specs.Prelude.{◌≡◌};
ghost use Rattle.mtl.specs.Tables.{lines_of};

use mtl::draft::Draft;
use mtl::line::{Fields, Window};
use mtl::table::Table;

const SINCE: char = 's';

const UNTIL: char = 'u';

// A since or an until of marks 0 and 1, by its letter, since it is only entered and printed by that: a draft takes letters, a wanted
// form (docs/DECISIONS.md).
#[derive(Clone, Copy)]
pub struct Windowed {
    pub letter: char,
    pub window: Window,
}

impl Windowed {
    ghost use Rattle.trial_lines.specs.Lines.{windowed, rules_with};

    // A since of the two marks.
    pub fn since(from: u32, to: Option<u32>) -> Windowed
        ensures { result ≡ windowed SINCE from to }
    {
        Windowed {
            letter: SINCE,
            window: Window { from, to },
        }
    }

    // An until of the two marks.
    pub fn until(from: u32, to: Option<u32>) -> Windowed
        ensures { result ≡ windowed UNTIL from to }
    {
        Windowed {
            letter: UNTIL,
            window: Window { from, to },
        }
    }

    // The two marks, and the line, unless it is refused.
    pub fn table(self) -> Table
        ensures { lines_of result ≡ rules_with self }
    {
        let Window { from, to } = self.window;
        let mark = Fields {
            from: 0,
            to: None,
            left: 0,
            right: 1,
        };
        let mut draft = Draft::new();
        let _ = draft.enter('m', mark);
        let _ = draft.enter('m', Fields { left: 1, ..mark });
        let _ = draft.enter(self.letter, Fields { from, to, ..mark });
        draft.close()
    }
}
