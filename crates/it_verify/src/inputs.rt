//! What a verification looks at.
use it_base::sequence::Sequence;
use it_base::text::Text;
use it_chain::bundle::Bundle;

/// All that a verdict rests on, apart from the checks of signatures.
#[derive(Drop)]
pub struct Inputs {
    /// The bytes of the policy.
    pub policy: Sequence<u8>,
    /// The bytes of the layout's envelope (DSSE v1.0).
    pub layout: Sequence<u8>,
    /// The files and folders that the layout is checked against.
    pub links: Bundle,
    /// The records of inspections: each the name of an inspection and the bytes of a link, without
    /// an envelope. The first of each name counts.
    pub records: Sequence<(Text, Sequence<u8>)>,
    /// The bytes of the provenance: one envelope per line.
    pub provenance: Sequence<u8>,
    /// The bytes of the digest list by SHA-256, which names delivered files. Empty where there is
    /// none.
    pub sums: Sequence<u8>,
    /// The bytes of the digest list by SHA-512, which names delivered files too. Empty where there
    /// is none.
    pub sums512: Sequence<u8>,
    /// The moment at which no layout may have expired, as `YYYY-MM-DDThh:mm:ssZ`.
    pub moment: Text,
    /// How deep sublayouts may be nested: 0 for none.
    pub depth: u8,
}
