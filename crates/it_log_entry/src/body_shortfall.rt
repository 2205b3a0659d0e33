//! Which part of the body of an entry is not about a signature.
ghost use Rattle.std.specs.Prelude.{◌≡◌};
ghost use Rattle.it_log_entry.specs.Place.{body_place};

/// The part of the body of an entry that is not about a signature: the first of these.
#[derive(Clone, Copy, Debug, PartialEq, Eq)]
pub enum BodyShortfall {
    /// It does not read: no JSON, of another kind or version than its entry, or a part is missing,
    /// or it has not one signature.
    Form,
    /// The hash of the payload is that of another one.
    Payload,
    /// The payload type is another.
    PayloadType,
    /// The signature is another.
    Signature,
    /// The certificate is another.
    Certificate,
}

impl BodyShortfall {
    /// How many parts come before it.
    pub(crate) fn place(self) -> u8
        ensures { result ≡ body_place self }
    {
        match self {
            BodyShortfall::Form => 0,
            BodyShortfall::Payload => 1,
            BodyShortfall::PayloadType => 2,
            BodyShortfall::Signature => 3,
            BodyShortfall::Certificate => 4,
        }
    }
}
