// The nodes of a certificate, over a lent stack of the claims that are waiting.
ghost use Rattle.std.specs.Prelude.{◌≡◌, ◌*◌, ◌≤◌, [], length};
ghost use Rattle.mtl.specs.Bytes.{nodes};
ghost use Rattle.mtl.specs.Checking.{ended, checks, node_step};
ghost use Rattle.mtl.specs.Tables.{lines_of};
ghost use Rattle.checker.specs.Told.{told};
ghost use Rattle.checker.specs.Stepped.{stepped, AtNode};

use crate::fault::CheckFault;
use crate::parts::Parts;
use crate::view::View;
use logs::traits::Readable;
use mtl::ruling::{Claim, Node, Ruling};
use mtl::table::Table;
use proof_rules::fitting::{ruling_of, stand};
use proof_rules::standing::Standing;

// The table and the log that a certificate's nodes are judged by.
#[derive_where(Clone, Copy)]
pub(crate) struct Judge<'a, L> {
    pub(crate) table: &'a Table,
    pub(crate) log: &'a L,
}

// The question at the end: exactly one subtree waiting.
fn only(waiting: &[Claim], nodes: usize) -> Result<Claim, CheckFault>
    ensures { told result ≡ ended waiting.now nodes }
{
    match waiting {
        [claim] => Ok(*claim),
        _ => Err(CheckFault::NotOneLeft { nodes }),
    }
}

impl<'a, L: Readable> Judge<'a, L> {
    // What node number at rules, taking its children off the end of those waiting; or the first question that it fails.
    fn ruling(&self, node: Node, at: usize, waiting: &[Claim]) -> Result<Ruling, CheckFault>
        ensures step { stepped waiting.now node result ≡ node_step (lines_of self.now.table.now) (L.Readable.rows self.now.log.now) waiting.now node }
        ensures place { AtNode at waiting.now node result }
    {
        let Some(line) = self.table.line(node.line as usize) else {
            return Err(CheckFault::NoSuchLine { node: at });
        };
        let view = View {
            log: self.log,
            parts: Parts::from(line),
            row: node.row,
        };
        let standing = stand(node.rule, view.parts.kind, node.count, view.interval());
        if standing == Standing::OtherKind {
            return Err(CheckFault::RuleOfOtherKind { node: at });
        }
        if node.row as usize >= self.log.len() {
            return Err(CheckFault::NoSuchRow { node: at });
        }
        let count = node.count as usize;
        if standing == Standing::WrongCount || waiting.len() < count {
            return Err(CheckFault::WrongCount { node: at });
        }
        let children = &waiting[waiting.len() - count..];
        if !view.parts.lines_fit(node.rule, children) {
            return Err(CheckFault::WrongChild { node: at });
        }
        if standing == Standing::OutsideInterval || !view.rows_fit(node.rule, children) {
            return Err(CheckFault::ConditionNotMet { node: at });
        }
        Ok(ruling_of(node.rule))
    }

    // The nodes one after another; the claims waiting are the stack's first ones, up to top.
    // The caller lends the stack, since there is no heap here: so its height stands beside it.
    // The slice pattern that names a node's six bytes is a wanted form (docs/DECISIONS.md). It takes them off what is left, so the
    // node's number is counted by hand.
    pub(crate) fn walk(&self, certificate: &[u8], stack: &mut [Claim]) -> Result<Claim, CheckFault>
        requires { length certificate.now ≤ 6 * length stack.old }
        ensures { told result ≡ checks (lines_of self.now.table.now) (L.Readable.rows self.now.log.now) [] (nodes certificate.now) 0 }
    {
        let mut top = 0;
        let mut at = 0;
        let mut left = certificate;
        while let [line, rule, row1, row0, count1, count0, rest @ ..] = left {
            let node = Node {
                line: *line,
                rule: *rule,
                row: u16::from_be_bytes([*row1, *row0]),
                count: u16::from_be_bytes([*count1, *count0]),
            };
            let ruling = self.ruling(node, at, &stack[..top])?;
            let base = top - node.count as usize;
            stack[base] = Claim {
                line: node.line,
                row: node.row,
                ruling,
            };
            top = base + 1;
            at += 1;
            left = rest;
        }
        only(&stack[..top], at)
    }
}
