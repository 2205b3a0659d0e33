//! Notes on a step.
use it_base::sequence::Sequence;
use it_base::text::Text;

/// What is found in a file that is claimed for a step.
#[derive(Drop)]
pub enum Finding {
    /// Its bytes are not a DSSE envelope.
    NoEnvelope,
    /// The payload type of its envelope is this one, not that of in-toto.
    PayloadType(Text),
    /// It has no valid signature under a key id that the step lists and the layout has a key for.
    /// It is signed under these key ids of the layout, each given once, which its signatures name
    /// and the step does not list.
    NoSignature(Sequence<Text>),
    /// It has no valid signature under a key id that the step lists and the layout has a key for.
    /// Whether it is signed under others was not looked at, since that would take too many checks.
    Unsigned,
    /// Its payload is neither a link nor a layout.
    NeitherLinkNorLayout,
    /// Its payload is a link with this name, which is not the step's.
    OtherName(Text),
    /// It counts for these key ids.
    Counts(Sequence<Text>),
}

/// Something that is true of a step of a layout over a bundle.
#[derive(Drop)]
pub enum StepNote {
    /// What is found in a file that is claimed for the step.
    File {
        /// The name of the file.
        name: Text,
        /// What is found in it.
        finding: Finding,
    },
    /// The layout has no key object for a key id that the step lists.
    NoKeyObject {
        /// The key id.
        id: Text,
    },
    /// No file has the name under which the link of a key id that the step lists is kept.
    NoFile {
        /// The key id.
        id: Text,
        /// The name that such a file would have.
        name: Text,
    },
    /// The name of a file begins and ends as if it claimed the file for the step, but does not.
    NearlyClaims {
        /// The name of the file.
        name: Text,
    },
}
