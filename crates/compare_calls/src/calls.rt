// Random calls on a case over a growing log, against a model of it.
use crate::model::Model;
use crate::tallies::Tallies;
use cases::case::Case;
use comparison::dice::Dice;
use comparison::futures::Futures;
use comparison::library::{row_of, told, told_checked};
use comparison::tally::Place;
use comparison::work::{BLANK, BYTE, NEEDED, Work, holds, is_blank};
use evaluator::rules::{Moment, Statement};
use evaluator::told::{Answer, Question, Told, claim_at};
use logs::traits::Growing;
use mtl::ruling::Claim;
use std::alloc::{AllocError, Global};

// A case and what random calls are made on it with: its model, and certificates from earlier calls.
#[derive(Drop)]
pub(crate) struct Run<L: Growing> {
    heap: Global,
    trial: u32,
    dice: Dice,
    case: Case<L>,
    model: Model,
    work: Work,
    certificates: Vec<Vec<u8>>,
    // Whether most calls add rows, which differ in many marks from one to the next.
    busy: bool,
}

// A certificate of one node: line 0 at row 0 by rule 2.
const NO_MARK: &[u8] = &[0, 2, 0, 0, 0, 0];

// A line or row, now and then one that is not there.
fn pick(dice: &mut Dice, count: usize) -> usize {
    if dice.once_in(12) {
        count.saturating_add(dice.index(3))
    } else {
        dice.index(count)
    }
}

impl<L: Growing + Drop> Run<L> {
    pub(crate) fn new(
        heap: Global,
        trial: u32,
        case: Case<L>,
        model: Model,
        busy: bool,
    ) -> Result<Run<L>, AllocError> {
        Ok(Run {
            heap,
            trial,
            dice: Dice::new(trial),
            case,
            model,
            work: Work::new(heap, NEEDED, NEEDED)?,
            certificates: Vec::new(heap),
            busy,
        })
    }

    // A place in the table and the log, or outside them.
    fn place(&mut self) -> Place {
        let lines = self.model.rules.len();
        let rows = self.model.rows.len();
        let line = pick(&mut self.dice, lines);
        let row = pick(&mut self.dice, rows);
        let trial = self.trial;
        Place { trial, line, row }
    }

    // Marks of which few or many differ from the last row's.
    fn next_marks(&mut self, last: u32) -> u32 {
        if !self.busy {
            self.dice.any() & 0x8000_0007
        } else if self.dice.once_in(2) {
            last ^ (self.dice.any() & self.dice.any() & self.dice.any() & self.dice.any())
        } else {
            self.dice.any()
        }
    }

    fn next_row(&mut self) -> Moment {
        let last = self.model.last_row();
        let time = if self.dice.once_in(12) {
            last.time.saturating_sub(1)
        } else {
            last.time.saturating_add(self.dice.below(3) as u64)
        };
        let marks = self.next_marks(last.marks);
        Moment { time, marks }
    }

    // A ruling that the case gave: true in continuations of the rows that it has, and as before.
    fn given(&mut self, claim: Statement, tallies: &mut Tallies) -> Result<(), AllocError> {
        let trial = self.trial;
        let (line, row) = (claim.line, claim.row);
        let place = Place { trial, line, row };
        let rules = self.model.rules.as_slice();
        let rows = self.model.rows.as_slice();
        let futures = Futures::of(self.heap, &mut self.dice, rules, rows, 2)?;
        let answer = Ok(Answer::Proved(claim));
        tallies
            .given_true
            .right(place, futures.agree(rules, claim), answer)?;
        let kept = self.model.note(claim)?;
        tallies.kept.right(place, kept, answer)
    }

    fn add(&mut self, tallies: &mut Tallies) -> Result<(), AllocError> {
        let place = self.place();
        let row = self.next_row();
        let expected = self.model.add(row)?;
        let got = told(self.case.add(row_of(row)));
        tallies.added.answer(place, expected, got)
    }

    fn show(&mut self, tallies: &mut Tallies) -> Result<(), AllocError> {
        let place = self.place();
        let got = told(self.case.show(place.line, place.row));
        let expected = self.model.show(place.line, place.row);
        tallies.shown.answer(place, expected, got)
    }

    // How many bytes of output Settle is lent.
    fn room(&mut self) -> usize {
        if self.dice.once_in(8) {
            self.dice.index(24)
        } else {
            24576
        }
    }

    // What Settle wrote is the certificate that the evaluator chose, which is kept for later calls.
    fn wrote(
        &mut self,
        place: Place,
        got: Told,
        out: &[u8],
        tallies: &mut Tallies,
    ) -> Result<(), AllocError> {
        let Some(claim) = claim_at(got, place.line, place.row) else {
            return tallies.ruled.right(place, holds(out, &[]), got);
        };
        let bytes = self.model.certificate(self.heap, claim)?;
        tallies
            .ruled
            .right(place, holds(out, bytes.as_slice()), got)?;
        self.certificates.push(bytes)?;
        self.given(claim, tallies)
    }

    fn settle(&mut self, tallies: &mut Tallies) -> Result<(), AllocError> {
        self.model.refresh(self.heap)?;
        let place = self.place();
        let (line, row) = (place.line, place.row);
        let room = self.room();
        let mut out = vec![in self.heap; BYTE; room]?;
        let sizes = &mut self.work.sizes;
        let plan = &mut self.work.plan;
        let got = told(self.case.settle(line, row, sizes, plan, &mut out));
        let expected = self.model.world.settle(line, row, NEEDED, room);
        tallies.ruled.answer(place, expected, got)?;
        self.wrote(place, got, out.as_slice(), tallies)
    }

    // A certificate from an earlier call; before there is one, that of one node.
    fn earlier(&mut self) -> Result<Vec<u8>, AllocError> {
        let bytes = self
            .dice
            .choose(self.certificates.as_slice())
            .map_or(NO_MARK, |bytes| bytes.as_slice());
        Vec::from_slice(self.heap, bytes)
    }

    // Now and then a byte is changed, or the end is cut off.
    fn damage(&mut self, bytes: &mut Vec<u8>) {
        let at = self.dice.index(bytes.len());
        let value = self.dice.byte(27);
        if self.dice.once_in(3) {
            if let Some(byte) = bytes.get_mut(at) {
                *byte = value;
            }
        } else if self.dice.once_in(8) {
            bytes.truncate(at);
        }
    }

    // What goes with an answer of Present: an accepted claim is given, and a certificate that is not read leaves the stack.
    fn answered(
        &mut self,
        place: Place,
        got: Told,
        stack: &[Claim],
        tallies: &mut Tallies,
    ) -> Result<(), AllocError> {
        let unread = [
            Question::NodesAreWhole,
            Question::NodesAreFew,
            Question::StackHasRoom,
        ];
        match got {
            Ok(Answer::Proved(claim)) => self.given(claim, tallies),
            Err(refused) if refused.is_by(&unread) => {
                tallies.presented.right(place, is_blank(stack), got)
            }
            _ => Ok(()),
        }
    }

    fn present(&mut self, tallies: &mut Tallies) -> Result<(), AllocError> {
        self.model.refresh(self.heap)?;
        let place = self.place();
        let mut bytes = self.earlier()?;
        self.damage(&mut bytes);
        let short = if self.dice.once_in(10) { 1 } else { 0 };
        let places = (bytes.len() / 6).saturating_sub(short);
        let mut stack = vec![in self.heap; BLANK; places]?;
        let got = told_checked(self.case.present(bytes.as_slice(), &mut stack));
        let expected = self.model.world.check(self.heap, bytes.as_slice(), places)?;
        tallies.presented.answer(place, expected, got)?;
        self.answered(place, got, stack.as_slice(), tallies)
    }

    // Makes one call.
    pub(crate) fn call(&mut self, tallies: &mut Tallies) -> Result<(), AllocError> {
        match self.dice.below(if self.busy { 40 } else { 8 }) {
            0 | 1 => self.settle(tallies),
            2 | 3 => self.present(tallies),
            4 => self.show(tallies),
            _ => self.add(tallies),
        }
    }
}
