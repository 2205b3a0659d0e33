//! Why bytes are no trusted root, for the note that says so.
ghost use Rattle.std.specs.Prelude.{◌≡◌};
ghost use Rattle.it_trust_root.specs.RootPart.{name_of};

use it_trust_root::{ListPart, RootList, RootPart};
use std::fmt;
use std::fmt::{Display, Formatter};

/// The first part that keeps bytes from being a trusted root.
#[derive(Clone, Copy, Debug)]
pub struct RootFlaw {
    /// The part.
    pub part: RootPart,
}

impl Display for RootFlaw {
    fn fmt<W: fmt::Write>(&self, f: &mut Formatter<W>) -> fmt::Result {
        match self.part {
            RootPart::Json => f.write_str("it is no JSON object"),
            RootPart::MediaType => f.write_str("its mediaType is not that of a trusted root"),
            RootPart::In(list, ListPart::Whole) => {
                write!(f, "the member {} is not a list", name_of(list))
            }
            RootPart::In(list, ListPart::Element(place)) => {
                let (name, kind) = (name_of(list), kind_of(list));
                write!(f, "item {place} of {name} is no {kind}: ")?;
                f.write_str("a member is missing or of another form")
            }
            RootPart::In(list, ListPart::Count) => {
                write!(f, "the member {} has more than 64 items", name_of(list))
            }
        }
    }
}

/// The name of a list.
fn name_of(list: RootList) -> &'static str
    ensures { result.now ≡ name_of list }
{
    match list {
        RootList::Logs => "tlogs",
        RootList::Authorities => "certificateAuthorities",
        RootList::CertificateLogs => "ctlogs",
    }
}

/// What the items of a list are.
fn kind_of(list: RootList) -> &'static str {
    match list {
        RootList::Logs | RootList::CertificateLogs => "log",
        RootList::Authorities => "authority",
    }
}
