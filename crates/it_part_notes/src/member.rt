//! Members of documents, and what they must be.
ghost use Rattle.std.specs.Prelude.{◌≡◌};
ghost use Rattle.it_part_notes.specs.Members.{shown};

/// A member that is looked at.
#[derive(Clone, Copy)]
pub enum Member {
    /// A member of this name, of this kind, must be there.
    Needed(&'static str, Kind),
    /// A member of this name may be missing, and must be of this kind where it is there.
    Optional(&'static str, Kind),
}

/// What a member must be.
#[derive(Clone, Copy, Debug, PartialEq, Eq)]
pub enum Kind {
    /// A text.
    Text,
    /// The text `layout`.
    Word,
    /// A moment in UTC.
    Moment,
    /// A whole number of at least 1.
    Threshold,
    /// A whole number from 0 to 3.
    Level,
    /// A list of texts.
    Texts,
    /// An object from id to key object.
    Keys,
    /// Anything but an empty object from id to key object.
    SomeKey,
    /// A list of builders.
    Builders,
    /// An object.
    Object,
    /// A list.
    Items,
    /// A list of artifact rules.
    Rules,
    /// A text in base64.
    Base64,
    /// A list of signatures (DSSE v1.0).
    Signatures,
    /// The text `link`.
    LinkWord,
    /// An object from path to digest set.
    Artifacts,
}

impl Member {
    /// The name of the member. Takes no memory.
    pub fn name(self) -> &'static str
        ensures { result.now ≡ (shown self).name }
    {
        match self {
            Member::Needed(name, _) | Member::Optional(name, _) => name,
        }
    }

    /// What the member must be. Takes no memory.
    pub fn kind(self) -> Kind
        ensures { result ≡ (shown self).kind }
    {
        match self {
            Member::Needed(_, kind) | Member::Optional(_, kind) => kind,
        }
    }

    /// Whether the member must be there. Takes no memory.
    pub fn is_needed(self) -> bool
        ensures { result ≡ (shown self).is_needed }
    {
        match self {
            Member::Needed(_, _) => true,
            Member::Optional(_, _) => false,
        }
    }
}
