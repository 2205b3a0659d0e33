//! The lists of a trusted root.
ghost use Rattle.std.specs.Prelude.{◌≡◌, MatchResult};
ghost use Rattle.it_borrowed.specs.Tree.{as_data};
ghost use Rattle.it_trust_root.specs.RootPart.{name_of};
ghost use Rattle.it_trust_root.specs.ShortList.{IsShortList};
ghost use Rattle.it_trust_root.specs.inside.ListFaults.{IsFaultIn};

use crate::root_part::{ListPart, RootFault, RootList, RootPart};
use it_base::list::ListFault;
use it_base::sequence::Sequence;
use it_borrowed::list::numbered_list;
use it_borrowed::parts::FromBorrowed;
use json::Value;
use std::alloc::Global;

/// The most elements that a list may have.
const MOST_ELEMENTS: usize = 64;

/// The elements of a list, none where it is missing.
///
/// # Errors
///
/// `BadRoot` with the first part of the list that fails, and `OutOfMemory` where memory was
/// refused.
pub(crate) fn short_list<T: FromBorrowed>(
    alloc: Global,
    document: &Value<'_>,
    list: RootList,
) -> Result<Sequence<T>, RootFault>
    ensures { MatchResult result (IsShortList T.is_of (name_of list) (as_data document.now))
        (IsFaultIn T.is_of list (as_data document.now)) }
{
    match numbered_list::<T>(alloc, document, name_of(list)) {
        Ok(elements) => {
            if elements.as_slice().len() > MOST_ELEMENTS {
                return Err(RootFault::BadRoot(RootPart::In(list, ListPart::Count)));
            }
            Ok(elements)
        }
        Err(ListFault::NoList) => Err(RootFault::BadRoot(RootPart::In(list, ListPart::Whole))),
        Err(ListFault::NoItem(n)) => {
            Err(RootFault::BadRoot(RootPart::In(list, ListPart::Element(n))))
        }
        Err(ListFault::OutOfMemory) => Err(RootFault::OutOfMemory),
    }
}

fn name_of(list: RootList) -> &'static str
    ensures { result.now ≡ name_of list }
{
    match list {
        RootList::Logs => "tlogs",
        RootList::Authorities => "certificateAuthorities",
        RootList::CertificateLogs => "ctlogs",
    }
}
