// A rule line as a line of a rules text.
ghost use Rattle.std.specs.Prelude.{Some, ◌++◌, ◌∷◌, decimal};
ghost use Rattle.text_writers.specs.Writing.{line_text};
ghost use Rattle.text_writers.specs.RuleTexts.{end_field, rule_fields};

use mtl::line::{Line, Window};
use std::fmt;

// A line of a table, with its number.
#[derive(Clone, Copy)]
pub struct RuleLine {
    pub number: usize,
    pub line: Line,
}

// The two fields of a window: where it begins, and where it ends or `-` for nowhere.
#[derive(Clone, Copy)]
pub struct Span(pub Window);

impl fmt::Display for Span {
    ghost output = { λ w. Some (decimal w.0.from ++ 32 ∷ end_field w.0.to) };

    fn fmt<W: fmt::Write>(&self, f: &mut fmt::Formatter<W>) -> fmt::Result {
        let from = self.0.from;
        match self.0.to {
            Some(to) => write!(f, "{from} {to}"),
            None => write!(f, "{from} -"),
        }
    }
}

impl fmt::Display for RuleLine {
    ghost output = { λ l. Some (line_text (rule_fields l.number l.line)) };

    fn fmt<W: fmt::Write>(&self, f: &mut fmt::Formatter<W>) -> fmt::Result {
        let n = self.number;
        // Each form is written out whole, its letter too, as a reader sees it in a text.
        match self.line {
            Line::Mark(mark) => writeln!(f, "{n} m - - {mark} -"),
            Line::Not(left) => writeln!(f, "{n} n - - {left} -"),
            Line::And(left, right) => writeln!(f, "{n} a - - {left} {right}"),
            Line::Or(left, right) => writeln!(f, "{n} o - - {left} {right}"),
            Line::Previous(window, left) => writeln!(f, "{n} p {} {left} -", Span(window)),
            Line::Next(window, left) => writeln!(f, "{n} x {} {left} -", Span(window)),
            Line::Since(window, left, right) => writeln!(
                f,
                "{n} s {} {left} {right}",
                Span(window)
            ),
            Line::Until(window, left, right) => writeln!(
                f,
                "{n} u {} {left} {right}",
                Span(window)
            ),
        }
    }
}
