// Reading a certificate: nodes from the first to the last, with the claims that wait in a list.
use crate::rules::{Rule, Statement};
use crate::shapes::Shape;
use crate::told::{Answer, Question, Told};
use crate::ways::Ways;
use std::alloc::{AllocError, Global};

// What a certificate is read against.
#[derive(Clone, Copy)]
pub struct Reader<'a> {
    pub rules: &'a [Rule],
    pub rows: usize,
    pub ways: &'a Ways,
}

// A node as its six bytes say it.
#[derive(Clone, Copy)]
struct Node {
    line: usize,
    rule: usize,
    row: usize,
    count: usize,
}

impl TryFrom<&[u8]> for Node {
    type Error = Question;

    fn try_from(bytes: &[u8]) -> Result<Node, Question> {
        let [line, rule, row_high, row_low, count_high, count_low] = *bytes else {
            return Err(Question::NodesAreWhole);
        };
        Ok(Node {
            line: usize::from(line),
            rule: usize::from(rule),
            row: usize::from(u16::from_be_bytes([row_high, row_low])),
            count: usize::from(u16::from_be_bytes([count_high, count_low])),
        })
    }
}

// Whether the children have the lines and rulings of the shape, whatever their rows.
fn alike(rule: &Rule, shape: Shape, children: &[Statement]) -> bool {
    let held = shape.children_held();
    children.iter().enumerate().all(|(number, child)| {
        let side = if number == 0 {
            shape.first
        } else {
            shape.others
        };
        side.is_some_and(|side| rule.child(side, child.row, held) == *child)
    })
}

impl Reader<'_> {
    // Whether the node's rule has a way at its place with exactly these children.
    fn listed(&self, node: Node, children: &[Statement]) -> bool {
        let place = node.line.saturating_mul(self.rows).saturating_add(node.row);
        self.ways.at(place).iter().any(|way| way.rule == node.rule
            && self.ways.children_of(*way) == children)
    }

    // The first question of a node that it answers no, or the claim that it makes.
    fn ask(&self, node: Node, waiting: &[Statement]) -> Result<Statement, Question> {
        let rule = self.rules.get(node.line).ok_or(Question::NodeHasLine)?;
        let shape = Shape::of(node.rule)
            .filter(|shape| shape.kind == rule.kind)
            .ok_or(Question::RuleIsOfItsKind)?;
        Question::NodeHasRow.ask(node.row < self.rows)?;
        let children = waiting
            .len()
            .checked_sub(node.count)
            .filter(|_| shape.takes(node.count))
            .and_then(|others| waiting.get(others..))
            .ok_or(Question::CountIsRight)?;
        Question::ChildrenAreRight.ask(alike(rule, shape, children))?;
        Question::ConditionIsMet.ask(self.listed(node, children))?;
        Ok(Statement {
            line: node.line,
            row: node.row,
            held: shape.held,
        })
    }

    // The nodes one by one, counted from 0. A refusal is told, and want of memory is no answer at all: one error type for both
    // would need its Froms and a match that parts the two again, which is longer than these.
    fn nodes(&self, heap: Global, certificate: &[u8]) -> Result<Told, AllocError> {
        let mut waiting: Vec<Statement> = Vec::new(heap);
        for (number, bytes) in certificate.chunks(6).enumerate() {
            let node = match Node::try_from(bytes) {
                Ok(node) => node,
                Err(question) => return Ok(Err(question.into())),
            };
            match self.ask(node, waiting.as_slice()) {
                Ok(claim) => {
                    waiting.truncate(waiting.len().saturating_sub(node.count));
                    waiting.push(claim)?;
                }
                Err(question) => return Ok(Err(question.at(number))),
            }
        }
        match *waiting.as_slice() {
            [claim] => Ok(Ok(Answer::Proved(claim))),
            _ => Ok(Err(Question::OneIsLeft.at(certificate.len() / 6))),
        }
    }

    // What Check is to tell of a certificate, with so many places on the stack.
    pub fn read(
        &self,
        heap: Global,
        certificate: &[u8],
        places: usize,
    ) -> Result<Told, AllocError> {
        match sized(certificate.len(), places) {
            Ok(()) => self.nodes(heap, certificate),
            Err(question) => Ok(Err(question.into())),
        }
    }
}

// What is asked before a node is read: whole nodes, not too many, and room on the stack.
fn sized(length: usize, places: usize) -> Result<(), Question> {
    Question::NodesAreWhole.ask(length != 0 && length % 6 == 0)?;
    Question::NodesAreFew.ask(length <= 24576)?;
    Question::StackHasRoom.ask(length / 6 <= places)
}
