// Whether a node's rule is one of its line's kind, and what follows from its number.
ghost use Rattle.std.specs.Prelude.{◌≡◌};
ghost use Rattle.proof_rules.specs.Rule.{standing, ruled, gap_inside, gap_short, gap_long, gap_there};

use crate::standing::{Interval, Standing};
use mtl::line::Kind;
use mtl::ruling::Ruling;

impl Interval {
    fn there(&self) -> bool
        ensures { result ≡ gap_there self.now }
    {
        self.gap.is_some()
    }

    fn inside(&self) -> bool
        ensures { result ≡ gap_inside self.now }
    {
        self.gap.is_some_and(|gap| self.window.inside(gap))
    }

    fn short(&self) -> bool
        ensures { result ≡ gap_short self.now }
    {
        self.gap.is_some_and(|gap| gap < self.window.from)
    }

    fn long(&self) -> bool
        ensures { result ≡ gap_long self.now }
    {
        self.gap.is_some_and(|gap| self.window.beyond(gap))
    }
}

// How a node stands with its rule. The rules go by their numbers, as certificates have them: one match over all 26,
// a wanted form (docs/DECISIONS.md).
pub fn stand(rule: u8, kind: Kind, count: u16, interval: Interval) -> Standing
    ensures { result ≡ standing kind rule count interval }
{
    match rule {
        1..=2 if kind == Kind::Mark && count == 0 => Standing::Fits,
        1..=2 if kind == Kind::Mark => Standing::WrongCount,
        3..=4 if kind == Kind::Not && count == 1 => Standing::Fits,
        3..=4 if kind == Kind::Not => Standing::WrongCount,
        5 if kind == Kind::And && count == 2 => Standing::Fits,
        6..=7 if kind == Kind::And && count == 1 => Standing::Fits,
        5..=7 if kind == Kind::And => Standing::WrongCount,
        8..=9 if kind == Kind::Or && count == 1 => Standing::Fits,
        10 if kind == Kind::Or && count == 2 => Standing::Fits,
        8..=10 if kind == Kind::Or => Standing::WrongCount,
        11 if kind == Kind::Previous && count == 1 && interval.inside() => Standing::Fits,
        12 if kind == Kind::Previous && count == 1 && interval.there() => Standing::Fits,
        11..=12 if kind == Kind::Previous && count == 1 => Standing::OutsideInterval,
        11..=12 if kind == Kind::Previous => Standing::WrongCount,
        13 if kind == Kind::Previous && count == 0 && interval.short() => Standing::Fits,
        14 if kind == Kind::Previous && count == 0 && interval.long() => Standing::Fits,
        15 if kind == Kind::Previous && count == 0 && !interval.there() => Standing::Fits,
        13..=15 if kind == Kind::Previous && count == 0 => Standing::OutsideInterval,
        13..=15 if kind == Kind::Previous => Standing::WrongCount,
        16 if kind == Kind::Next && count == 1 && interval.inside() => Standing::Fits,
        17 if kind == Kind::Next && count == 1 => Standing::Fits,
        18 if kind == Kind::Next && count == 0 && interval.short() => Standing::Fits,
        19 if kind == Kind::Next && count == 0 && interval.long() => Standing::Fits,
        16 if kind == Kind::Next && count == 1 => Standing::OutsideInterval,
        18..=19 if kind == Kind::Next && count == 0 => Standing::OutsideInterval,
        16..=19 if kind == Kind::Next => Standing::WrongCount,
        20..=21 if kind == Kind::Since && count >= 1 => Standing::Fits,
        22 if kind == Kind::Since => Standing::Fits,
        23 if kind == Kind::Since && count == 0 => Standing::Fits,
        20..=23 if kind == Kind::Since => Standing::WrongCount,
        24..=25 if kind == Kind::Until && count >= 1 => Standing::Fits,
        26 if kind == Kind::Until => Standing::Fits,
        24..=25 if kind == Kind::Until => Standing::WrongCount,
        _ => Standing::OtherKind,
    }
}

// What a rule rules.
pub fn ruling_of(rule: u8) -> Ruling
    ensures { result ≡ ruled rule }
{
    match rule {
        1 | 3 | 5 | 8 | 9 | 11 | 16 | 20 | 24 => Ruling::Held,
        _ => Ruling::Broken,
    }
}
