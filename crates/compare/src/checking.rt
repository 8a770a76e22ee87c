// Check on every certificate that the evaluator chose, and on changed ones, against the evaluator's reading.
use crate::bench::Bench;
use comparison::dice::Dice;
use comparison::tally::{Place, Tally};
use comparison::work::{BLANK, is_blank};
use evaluator::rules::Statement;
use evaluator::told::{Answer, Told};
use mtl::ruling::Claim;
use std::alloc::{AllocError, Global};
use std::mem;

// What certificates are checked with, a stack that is long enough and the place of the one that is changed, and what came out.
#[derive(Drop)]
pub(crate) struct Checking {
    dice: Dice,
    stack: Vec<Claim>,
    place: Place,
    // Certificates as they were written.
    pub(crate) written: Tally,
    // Changed ones.
    pub(crate) damaged: Tally,
    // Changed ones that were accepted, in continuations.
    pub(crate) damaged_true: Tally,
}

// Check on one kind of log or another.
fn check_somewhere(
    bench: &Bench<'_>,
    dice: &mut Dice,
    certificate: &[u8],
    stack: &mut [Claim],
) -> Told {
    match dice.below(3) {
        0 => bench.check(&bench.masks, certificate, stack),
        1 => bench.check(&bench.changes, certificate, stack),
        _ => bench.check(&bench.sheet, certificate, stack),
    }
}

// The bytes before a place and those from there on.
fn split(bytes: &[u8], at: usize) -> (&[u8], &[u8]) {
    bytes.split_at(at.min(bytes.len()))
}

impl Checking {
    pub(crate) fn new(heap: Global) -> Result<Checking, AllocError> {
        Ok(Checking {
            dice: Dice::new(1),
            stack: vec![in heap; BLANK; 4096]?,
            place: Place {
                trial: 0,
                line: 0,
                row: 0,
            },
            written: Tally::new(heap),
            damaged: Tally::new(heap),
            damaged_true: Tally::new(heap),
        })
    }

    // Changed bytes: what Check tells is what the reading tells, and if it accepts, the claim is true.
    fn changed(&mut self, bench: &Bench<'_>, bytes: &[u8]) -> Result<(), AllocError> {
        let got = check_somewhere(bench, &mut self.dice, bytes, &mut self.stack);
        let expected = bench.world.check(bench.heap, bytes, self.stack.len())?;
        self.damaged.answer(self.place, expected, got)?;
        if let Ok(Answer::Proved(claim)) = got {
            let right = bench.futures.agree(bench.world.rules.as_slice(), claim);
            self.damaged_true.right(self.place, right, got)?;
        }
        Ok(())
    }

    // One byte set to another value, and back again.
    fn byte(
        &mut self,
        bench: &Bench<'_>,
        bytes: &mut [u8],
        at: usize,
        value: u8,
    ) -> Result<(), AllocError> {
        if at < bytes.len() {
            let old = mem::replace(&mut bytes[at], value);
            self.changed(bench, bytes)?;
            bytes[at] = old;
        }
        Ok(())
    }

    // Every byte set to its neighbours and to numbers of lines, rules and rows.
    fn bytes(&mut self, bench: &Bench<'_>, certificate: &[u8]) -> Result<(), AllocError> {
        let mut bytes = Vec::from_slice(bench.heap, certificate)?;
        for (at, byte) in certificate.iter().enumerate() {
            let rule = self.dice.byte(27);
            let small = self.dice.byte(8);
            for value in [byte.wrapping_add(1), byte.wrapping_sub(1), rule, small] {
                self.byte(bench, &mut bytes, at, value)?;
            }
        }
        Ok(())
    }

    // Every byte set to every value.
    fn all_values(&mut self, bench: &Bench<'_>, certificate: &[u8]) -> Result<(), AllocError> {
        let mut bytes = Vec::from_slice(bench.heap, certificate)?;
        for at in 0..certificate.len() {
            for value in 0..=255u8 {
                self.byte(bench, &mut bytes, at, value)?;
            }
        }
        Ok(())
    }

    // Pieces of a certificate joined.
    fn joined(&mut self, bench: &Bench<'_>, pieces: [&[u8]; 4]) -> Result<(), AllocError> {
        let mut bytes = Vec::new(bench.heap);
        for piece in pieces {
            bytes.extend_from_slice(piece)?;
        }
        self.changed(bench, bytes.as_slice())
    }

    // Each node left out with the one before kept, exchanged with it, and doubled; and two certificates one after the other.
    fn nodes(&mut self, bench: &Bench<'_>, certificate: &[u8]) -> Result<(), AllocError> {
        for begin in (0..certificate.len()).step_by(6) {
            let (head, rest) = split(certificate, begin);
            let (early, last) = split(head, head.len().saturating_sub(6));
            let (node, tail) = split(rest, 6);
            self.joined(bench, [early, last, tail, &[]])?;
            self.joined(bench, [early, node, last, tail])?;
            self.joined(bench, [head, node, node, tail])?;
        }
        self.joined(bench, [certificate, certificate, &[], &[]])
    }

    // Every beginning of a certificate.
    fn cuts(&mut self, bench: &Bench<'_>, certificate: &[u8]) -> Result<(), AllocError> {
        for end in 0..certificate.len() {
            self.changed(bench, &certificate[..end])?;
        }
        Ok(())
    }

    // A stack that is one place too short, which is left as it was.
    fn short_stack(&mut self, bench: &Bench<'_>, certificate: &[u8]) -> Result<(), AllocError> {
        let places = (certificate.len() / 6).saturating_sub(1);
        let mut stack = vec![in bench.heap; BLANK; places]?;
        let got = check_somewhere(bench, &mut self.dice, certificate, &mut stack);
        let expected = bench.world.check(bench.heap, certificate, places)?;
        self.damaged.answer(self.place, expected, got)?;
        let kept = is_blank(stack.as_slice());
        self.damaged.right(self.place, kept, got)
    }

    // A certificate again and again, until there are too many nodes.
    fn repeated(&mut self, bench: &Bench<'_>, certificate: &[u8]) -> Result<(), AllocError> {
        let mut bytes = Vec::new(bench.heap);
        for _ in 0..=24576 / certificate.len().max(1) {
            bytes.extend_from_slice(certificate)?;
        }
        self.changed(bench, bytes.as_slice())
    }

    // All damage to one certificate.
    fn damage(&mut self, bench: &Bench<'_>, certificate: &[u8]) -> Result<(), AllocError> {
        self.short_stack(bench, certificate)?;
        if certificate.len() > 300 {
            return self.repeated(bench, certificate);
        }
        if self.dice.once_in(40) {
            self.all_values(bench, certificate)?;
        } else {
            self.bytes(bench, certificate)?;
        }
        self.nodes(bench, certificate)?;
        self.cuts(bench, certificate)
    }

    // A certificate as it is, on all three kinds, is accepted as its claim.
    fn whole(
        &mut self,
        bench: &Bench<'_>,
        certificate: &[u8],
        claim: Statement,
    ) -> Result<(), AllocError> {
        let proved = Ok(Answer::Proved(claim));
        let places = self.stack.len();
        let read = bench.world.check(bench.heap, certificate, places)?;
        self.written.right(self.place, read == proved, read)?;
        let answers = [
            bench.check(&bench.masks, certificate, &mut self.stack),
            bench.check(&bench.changes, certificate, &mut self.stack),
            bench.check(&bench.sheet, certificate, &mut self.stack),
        ];
        for got in answers {
            self.written.answer(self.place, proved, got)?;
        }
        Ok(())
    }

    // Every certificate of a line whole, and some damaged.
    fn line(&mut self, bench: &Bench<'_>, line: usize) -> Result<(), AllocError> {
        for row in 0..bench.world.rows.len() {
            self.place = bench.place(line, row);
            for held in [true, false] {
                let claim = Statement { line, row, held };
                if let Some(certificate) = bench.world.certificates.bytes(claim) {
                    self.whole(bench, certificate, claim)?;
                    if self.dice.once_in(6) {
                        self.damage(bench, certificate)?;
                    }
                }
            }
        }
        Ok(())
    }

    // Certificates by ways whose condition may fail, over right children.
    fn near(&mut self, bench: &Bench<'_>) -> Result<(), AllocError> {
        for way in &bench.near.list {
            self.place = bench.place(way.line, way.row);
            let certificates = &bench.world.certificates;
            let bytes = certificates.by_way(bench.heap, &bench.near, *way)?;
            if let Some(bytes) = bytes.filter(|bytes| bytes.len() < 3000) {
                self.changed(bench, bytes.as_slice())?;
            }
        }
        Ok(())
    }

    // Check on the certificates of all lines.
    pub(crate) fn all(&mut self, bench: &Bench<'_>) -> Result<(), AllocError> {
        for line in 0..bench.world.rules.len() {
            self.line(bench, line)?;
        }
        self.near(bench)
    }
}
