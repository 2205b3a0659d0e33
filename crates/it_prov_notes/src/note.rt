//! What is noted about lines of provenance.
use it_base::sequence::Sequence;
use it_base::text::Text;

/// Why one line of the provenance does not count for a delivered file.
#[derive(Drop)]
pub struct ProvenanceNote {
    /// The number of the line, from 1.
    pub line: u64,
    /// What the line misses.
    pub shortfall: Shortfall,
}

/// What a line of the provenance misses of an expectation.
#[derive(Drop)]
pub enum Shortfall {
    /// The line is not an envelope.
    NoEnvelope(Shape),
    /// None of the expected builders signed it. If a key is named, it is one of theirs, and made a
    /// signature that is not tried for it.
    NotSigned(Option<HintedKey>),
    /// None of the expected builders signed it, and its payload is too large to be looked at.
    TooLarge,
    /// Its payload is of this type, not that of in-toto.
    OtherPayloadType(Text),
    /// Its payload is not a Statement. The text is its `_type`, if it has one.
    NoStatement(Option<Text>),
    /// The predicate of its Statement is not provenance. The text is the predicate's type.
    NoProvenance(Text),
    /// No subject of its Statement has the digests of the file.
    NoSubject,
    /// It names a builder other than the expected ones that signed it.
    OtherBuilder {
        /// The id that its provenance names.
        found: Text,
        /// The id of an expected builder that signed it.
        wanted: Text,
    },
    /// The build is of another type.
    OtherBuildType {
        /// The type that its provenance names.
        found: Text,
        /// The type that is expected.
        wanted: Text,
    },
    /// No parameter is under this name, under which one is expected.
    MissingParameter(Text),
    /// The parameter under this name is not equal to the one that is expected there.
    UnequalParameter {
        /// The name.
        name: Text,
        /// Where the two differ.
        difference: Difference,
    },
    /// A parameter is under this name, which is neither expected nor ignored.
    UnexpectedParameter(Text),
    /// Each expected builder that it names and that signed it is of too low a level.
    LowLevel {
        /// The greatest level that the policy trusts one of these builders to reach.
        found: u8,
        /// The least level that is expected.
        wanted: u8,
    },
}

/// A key that signed an envelope, but not under its own id.
#[derive(Drop)]
pub struct HintedKey {
    /// The id of the key.
    pub id: Text,
    /// The key id that the signature names.
    pub keyid: Text,
}

/// A place inside two values at which they differ.
#[derive(Drop)]
pub struct Difference {
    /// The names of the members that lead to the place, the outermost first. There is none where
    /// the values differ as a whole.
    pub place: Sequence<Text>,
    /// What is there, if anything is.
    pub found: Option<ValueNote>,
    /// What is expected there, if anything is.
    pub wanted: Option<ValueNote>,
}

/// What a note says of a JSON value.
#[derive(Drop)]
pub enum ValueNote {
    /// It is `null`.
    Null,
    /// It is `true` or `false`.
    Flag(bool),
    /// It is this whole number.
    Whole(i128),
    /// It is this text.
    Text(Text),
    /// It is some list.
    List,
    /// It is some object.
    Object,
    /// It is some number that is not a whole one of 64 bits, such as `1.0`. It equals nothing.
    Number,
}

/// What a line that is no envelope looks like.
#[derive(Drop)]
pub enum Shape {
    /// It is not a JSON document: one line of an envelope laid out over several, for example.
    NoDocument,
    /// It is a list.
    List,
    /// It has a member `dsseEnvelope`, as a Sigstore bundle around an envelope has.
    Bundle,
    /// Its member `_type` is this text, as that of a Statement without an envelope is.
    Typed(Text),
    /// It is any other document.
    Other,
}
