//! What a leaf misses.
ghost use Rattle.std.specs.Prelude.{◌≡◌};
ghost use Rattle.it_issued.specs.IssueMisses.{issue_place};
ghost use Rattle.it_issued.specs.LogMisses.{log_place};

/// The condition that is missed where an authority did not issue a leaf at a moment: the first of
/// these.
#[derive(Clone, Copy, Debug, PartialEq, Eq)]
pub enum IssueShortfall {
    /// The leaf names another issuer.
    Name,
    /// The authority was not trusted then.
    Window,
    /// The leaf was not valid then.
    LeafTime,
    /// One of the authority's certificates was not valid then.
    AuthorityTime,
    /// The authority's key did not sign the leaf.
    Signature,
}

impl IssueShortfall {
    /// How many conditions come before this one: the higher, the further the leaf comes.
    pub fn place(self) -> u8
        ensures { result ≡ issue_place self }
    {
        match self {
            IssueShortfall::Name => 0,
            IssueShortfall::Window => 1,
            IssueShortfall::LeafTime => 2,
            IssueShortfall::AuthorityTime => 3,
            IssueShortfall::Signature => 4,
        }
    }
}

/// The condition that is missed where no certificate log promised to log a leaf: the first of
/// these.
#[derive(Clone, Copy, Debug, PartialEq, Eq)]
pub enum LogShortfall {
    /// The leaf has no timestamps.
    Missing,
    /// They do not read.
    Form,
    /// None of them has the id of a log that is trusted.
    Log,
    /// None that has one is from a moment at which its log was trusted.
    Window,
    /// None that has one, and is from such a moment, is signed by its log.
    Signature,
}

impl LogShortfall {
    /// How many conditions come before this one: the higher, the further the leaf comes.
    pub fn place(self) -> u8
        ensures { result ≡ log_place self }
    {
        match self {
            LogShortfall::Missing => 0,
            LogShortfall::Form => 1,
            LogShortfall::Log => 2,
            LogShortfall::Window => 3,
            LogShortfall::Signature => 4,
        }
    }
}
