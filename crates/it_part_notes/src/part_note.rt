//! Notes on a part of a policy or of a layout that fails, and on a file of a step.

use crate::flaw::Flaw;
use crate::instead::Instead;
use crate::member::Member;
use crate::shape::Shape;
use it_base::sequence::Sequence;
use it_base::text::Text;

/// What is wrong with a part of a policy or of a layout, or with what a file of a step holds.
#[derive(Drop)]
pub struct PartNote {
    /// The place of the object that is looked at.
    pub place: PartPlace,
    /// What is wrong there.
    pub problem: Problem,
}

/// A place of a policy, of a layout, or of what a file of a step holds. Numbers count from 0.
#[derive(Clone, Copy, Debug, PartialEq, Eq)]
pub enum PartPlace {
    /// The whole policy.
    Policy,
    /// This expectation of a policy.
    Expectation(usize),
    /// The whole layout.
    Layout,
    /// This step of a layout.
    Step(usize),
    /// This inspection of a layout.
    Inspection(usize),
    /// The whole envelope (DSSE v1.0).
    Envelope,
    /// The whole link, which is the payload of an envelope.
    Link,
}

/// What is wrong at a place.
#[derive(Drop)]
pub enum Problem {
    /// The whole is no JSON document, for this reason where one is known.
    NoDocument(Option<Flaw>),
    /// The value there is no JSON object, but of this shape where it is a list, a text or a number.
    NoObject(Option<Shape>),
    /// The whole is no envelope, but this.
    Instead(Instead),
    /// This member of the object there is wrong.
    Member(Member, Fault),
}

/// What is wrong with a member.
#[derive(Drop)]
pub enum Fault {
    /// It is missing, and must be there.
    Missing,
    /// It is there, and is not what it must be.
    Unfit,
    /// It is a list of rules, and this item is not a rule.
    NoRule(BadRule),
}

/// An item of a list of rules that is not a rule.
#[derive(Drop)]
pub struct BadRule {
    /// The number of the item, from 0.
    pub number: usize,
    /// The texts of the item, or `None` where it is not a list of texts.
    pub words: Option<Sequence<Text>>,
}
