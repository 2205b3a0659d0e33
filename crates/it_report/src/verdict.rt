//! The verdict of a verification.
use crate::refusal::Refusal;
use it_base::sequence::Sequence;
use it_base::text::Text;

/// Whether a delivery is accepted.
#[derive(Drop)]
pub enum Verdict {
    /// Everything that was asked of the delivery holds.
    Accepted {
        /// The steps of the outermost layout, in its order: the name of each, and how many
        /// different keys signed a body that counts for it.
        steps: Sequence<(Text, u64)>,
        /// The paths of the delivered files, in the order of their bytes.
        files: Sequence<Text>,
    },
    /// Something does not hold: this is the first failure.
    Refused(Refusal),
}

/// A verdict, and the work that it took.
#[derive(Drop)]
pub struct Answer {
    /// Whether the delivery is accepted.
    pub verdict: Verdict,
    /// How many validity checks were asked for: for the owners of the policy, for the links and
    /// sublayouts at every depth, and for the provenance, in one count. A remembered answer on
    /// provenance counts for each delivered file that asks for it. A number that this cannot hold
    /// is given as the greatest that it can.
    pub asked: u64,
}
