//! A sublayout that counts.
use it_base::sequence::Sequence;
use it_base::text::Text;
use it_chain::chain::StepResult;
use it_docs::layout::Layout;

/// A sublayout that counts for a step of a layout under a key id (in-toto 1.0, section 5.2).
#[derive(Drop)]
pub struct CountedSublayout {
    /// The sublayouts down to this one, the outermost first: each by the name of its step and the
    /// key id that signed it, as a refusal has them.
    pub at: Sequence<(Text, Text)>,
    /// The payload of its envelope (DSSE v1.0).
    pub payload: Sequence<u8>,
    /// The layout that the payload is (in-toto 1.0, section 4.3).
    pub layout: Layout,
    /// The records of its steps, in its order.
    pub steps: Sequence<StepResult>,
}
