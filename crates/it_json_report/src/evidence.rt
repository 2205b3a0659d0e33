//! What stands behind an accepted delivery.
use it_base::sequence::Sequence;
use it_base::text::Text;
use it_digest::compare::DigestSet;

/// A key id that counted for a step, and by which files and signatures.
#[derive(Drop)]
pub struct CountedKey {
    /// The key id.
    pub id: Text,
    /// The names of the files that are signed by its key and count for the step, in the order of
    /// the bytes of their names.
    pub files: Sequence<Text>,
    /// For each of the files, in their order, the place of that signature among the signatures of
    /// its envelope, from 1: of several that are valid for the key, that of the first.
    pub signatures: Sequence<u64>,
}

/// The key ids that counted for a step.
#[derive(Drop)]
pub struct StepEvidence {
    /// The step's name.
    pub name: Text,
    /// The key ids by which something counts for the step, each once, in the order of the bytes of
    /// the ids.
    pub keys: Sequence<CountedKey>,
}

/// Whom a Sigstore bundle names as the signer of the provenance of a file.
#[derive(Drop)]
pub struct Signer {
    /// The identity, as the policy lists it for the builder.
    pub identity: Text,
    /// The issuer that vouched for the identity.
    pub issuer: Text,
    /// The time of the entry of a transparency log by which the bundle vouches, in seconds since
    /// 1970.
    pub logged_at: u64,
}

/// What stood for a delivered file.
#[derive(Drop)]
pub struct FileEvidence {
    /// The file's path.
    pub path: Text,
    /// Its digests.
    pub digests: DigestSet,
    /// The place of the envelope that is its provenance among the lines of the provenance, from 1.
    pub line: u64,
    /// The builder's id, which the provenance names.
    pub builder: Text,
    /// The level that the policy gives this builder.
    pub level: u8,
    /// Who signed the envelope, where a Sigstore bundle vouches that an identity of this builder
    /// did.
    pub signer: Option<Signer>,
}

/// What stands behind a delivery that is accepted.
#[derive(Drop)]
pub struct Evidence {
    /// The moment of the verification, as it was given.
    pub moment: Text,
    /// The SHA-256 of the policy's bytes.
    pub policy: [u8; 32],
    /// The SHA-256 of the bytes of the layout's envelope.
    pub layout: [u8; 32],
    /// The layout's `expires`, as the layout has it (in-toto 1.0, section 4.3).
    pub expires: Text,
    /// The steps of the layout, in its order.
    pub steps: Sequence<StepEvidence>,
    /// The delivered files, in the order of the bytes of their paths.
    pub files: Sequence<FileEvidence>,
}
