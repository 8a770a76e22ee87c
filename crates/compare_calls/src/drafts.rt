// Random lines entered into drafts, against the questions asked one by one.
use comparison::dice::Dice;
use comparison::library::told;
use comparison::tally::{Place, Tally};
use evaluator::rules::Kind;
use evaluator::told::{Answer, Question, Told};
use mtl::draft::Draft;
use mtl::line::Fields;
use std::alloc::AllocError;

const KINDS: [Kind; 8] = [
    Kind::Mark,
    Kind::Not,
    Kind::And,
    Kind::Or,
    Kind::Previous,
    Kind::Next,
    Kind::Since,
    Kind::Until,
];

// What entering is to tell, after so many lines; no kind has an unknown letter.
fn expected(lines: usize, kind: Option<Kind>, fields: &Fields) -> Told {
    Question::DraftHasRoom.ask(lines < 32)?;
    let kind = kind.ok_or(Question::KindIsKnown)?;
    Question::MarkIsSmall.ask(kind != Kind::Mark || fields.left < 32)?;
    let earlier = [fields.left, fields.right]
        .iter()
        .take(kind.operands())
        .all(|operand| (*operand as usize) < lines);
    Question::OperandsAreEarlier.ask(earlier)?;
    let whole = !kind.has_window() || fields.to.is_none_or(|to| fields.from <= to);
    Question::WindowIsWhole.ask(whole)?;
    Question::UntilEnds.ask(kind != Kind::Until || fields.to.is_some())?;
    Ok(Answer::Done)
}

// A number that is mostly small.
fn number(dice: &mut Dice, lines: usize) -> u32 {
    if dice.once_in(8) {
        dice.any()
    } else if dice.once_in(3) {
        dice.below(34)
    } else {
        u32::try_from(dice.index(lines.max(1))).unwrap_or(0)
    }
}

fn fields_of(dice: &mut Dice, lines: usize) -> Fields {
    let from = dice.below(5);
    let to = if dice.once_in(4) {
        None
    } else {
        Some(dice.below(9))
    };
    Fields {
        from,
        to,
        left: number(dice, lines),
        right: number(dice, lines),
    }
}

// Sixty lines into one draft; those that are taken are counted.
pub(crate) fn enter_all(trial: u32, tally: &mut Tally) -> Result<(), AllocError> {
    let mut dice = Dice::new(trial);
    let mut draft = Draft::new();
    // How many lines the draft should have: some of the sixty are refused, so no `enumerate` counts them.
    let mut line = 0usize;
    for row in 0..60usize {
        let place = Place { trial, line, row };
        let kind = KINDS.get(dice.index(9)).copied();
        let letter = kind.map_or('q', |kind| char::from(kind));
        let fields = fields_of(&mut dice, line);
        let expected = expected(line, kind, &fields);
        let got = told(draft.enter(letter, fields));
        tally.answer(place, expected, got)?;
        if expected.is_ok() {
            line = line.saturating_add(1);
        }
        tally.right(place, draft.len() == line, got)?;
    }
    let place = Place {
        trial,
        line,
        row: 60,
    };
    tally.right(place, draft.close().len() == line, Ok(Answer::Done))
}
