//! Why a delivery is refused.
ghost use Rattle.std.specs.Prelude.{◌≡◌};
ghost use Rattle.it_report.specs.Fault.{name_of, number_of};

use it_base::sequence::Sequence;
use it_base::text::Text;
use it_chain::refusal::RuleItem;
use it_docs::layout_fault::LayoutPart;
use it_docs::policy_fault::PolicyPart;
use it_docs::rule::Side;

/// What is wrong with a delivery. Each has a number and a name, which a report writes.
#[derive(Drop)]
pub enum Fault {
    /// The policy does not read. This is the first part that fails.
    BadPolicy(PolicyPart),
    /// The digest list by SHA-256 does not read. This is the first bad line, counted from 1.
    BadSums(u64),
    /// The digest list by SHA-512 does not read, and the one by SHA-256 does. This is the first bad
    /// line, counted from 1.
    BadSums512(u64),
    /// The moment does not read.
    BadMoment,
    /// No digest list names a file.
    NoFiles,
    /// The layout's bytes are not an envelope (DSSE v1.0).
    BadEnvelope,
    /// The layout's envelope does not have in-toto's payload type.
    WrongPayloadType,
    /// The owner with this id, the first such in byte order, did not sign the layout.
    OwnerMissing(Text),
    /// The layout does not read (in-toto 1.0). This is the first part that fails.
    BadLayout(LayoutPart),
    /// A layout's `expires` is before the moment.
    Expired,
    /// Two different bodies count for one key id.
    TwoPayloads {
        /// The name of the step.
        step: Text,
        /// The key id.
        id: Text,
    },
    /// A sublayout is nested deeper than the given depth.
    TooDeep,
    /// Fewer different keys than the step's threshold signed a body that counts.
    Threshold {
        /// The name of the step.
        step: Text,
        /// How many different keys signed.
        found: u64,
        /// The step's threshold.
        needed: u64,
    },
    /// Two records of one step differ.
    Disagree {
        /// The name of the step.
        step: Text,
        /// The least key id whose record is not that of the least id that counts.
        id: Text,
    },
    /// A sublayout asks for inspections.
    InspectionInSublayout,
    /// An artifact rule fails.
    RuleFailed {
        /// Whose rule it is.
        item: RuleItem,
        /// The side that the rule judges.
        side: Side,
        /// The rule's place in the list of that side, from 0.
        index: usize,
        /// The least path that a `DISALLOW` forbids, or the text of a `REQUIRE`.
        path: Text,
    },
    /// The inspection of this name has no record.
    RecordMissing(Text),
    /// The record of the inspection of this name is not a link of that name.
    BadRecord(Text),
    /// No expectation of the policy speaks of the delivered file at this path.
    NoExpectation(Text),
    /// No provenance meets the expectation for the delivered file at this path. The level is the
    /// highest of any builder with which some provenance meets the expectation in all but the
    /// level, or `None` if there is no such builder.
    NoProvenance(Text, Option<u8>),
}

/// Why a delivery is refused, and where.
#[derive(Drop)]
pub struct Refusal {
    /// The sublayouts down to the layout that the fault is about, the outermost first: each by the
    /// name of its step and the key id that signed it. Empty for the outermost layout, and for a
    /// fault that is about no layout.
    pub at: Sequence<(Text, Text)>,
    /// What is wrong.
    pub fault: Fault,
}

impl Fault {
    /// The number that a report gives for this fault. Takes no memory.
    pub fn number(&self) -> u8
        ensures { result ≡ number_of self.now }
    {
        match self {
            Fault::BadPolicy(_) => 10,
            Fault::BadSums(_) | Fault::BadSums512(_) => 12,
            Fault::BadMoment => 13,
            Fault::NoFiles => 14,
            Fault::BadEnvelope => 20,
            Fault::WrongPayloadType => 21,
            Fault::OwnerMissing(_) => 22,
            Fault::BadLayout(_) => 23,
            Fault::Expired => 30,
            Fault::TwoPayloads { .. } => 31,
            Fault::TooDeep => 32,
            Fault::Threshold { .. } => 33,
            Fault::Disagree { .. } => 34,
            Fault::InspectionInSublayout => 35,
            Fault::RuleFailed { .. } => 40,
            Fault::RecordMissing(_) => 50,
            Fault::BadRecord(_) => 51,
            Fault::NoExpectation(_) => 60,
            Fault::NoProvenance(..) => 61,
        }
    }

    /// The name that a report gives for this fault: that of its variant, but `BadSums` for either
    /// digest list. Takes no memory.
    pub fn name(&self) -> &'static str
        ensures { result.now ≡ name_of self.now }
    {
        match self {
            Fault::BadPolicy(_) => "BadPolicy",
            Fault::BadSums(_) | Fault::BadSums512(_) => "BadSums",
            Fault::BadMoment => "BadMoment",
            Fault::NoFiles => "NoFiles",
            Fault::BadEnvelope => "BadEnvelope",
            Fault::WrongPayloadType => "WrongPayloadType",
            Fault::OwnerMissing(_) => "OwnerMissing",
            Fault::BadLayout(_) => "BadLayout",
            Fault::Expired => "Expired",
            Fault::TwoPayloads { .. } => "TwoPayloads",
            Fault::TooDeep => "TooDeep",
            Fault::Threshold { .. } => "Threshold",
            Fault::Disagree { .. } => "Disagree",
            Fault::InspectionInSublayout => "InspectionInSublayout",
            Fault::RuleFailed { .. } => "RuleFailed",
            Fault::RecordMissing(_) => "RecordMissing",
            Fault::BadRecord(_) => "BadRecord",
            Fault::NoExpectation(_) => "NoExpectation",
            Fault::NoProvenance(..) => "NoProvenance",
        }
    }
}

impl Refusal {
    /// The number of the fault: the first of the two words of a report that say what is wrong.
    /// Takes no memory.
    pub fn number(&self) -> u8
        ensures { result ≡ number_of self.now.fault }
    {
        self.fault.number()
    }

    /// The name of the fault: the second of these words. Takes no memory.
    pub fn name(&self) -> &'static str
        ensures { result.now ≡ name_of self.now.fault }
    {
        self.fault.name()
    }
}
