//! Members that come again, and where they are.
ghost use Rattle.std.specs.Prelude.{◌≡◌, IfOk};
ghost use Rattle.it_repeats.specs.Repeats.{repeated};

use it_base::sequence::Sequence;
use it_base::text::Text;
use std::alloc::{AllocError, Global};

/// A step of the way from a document to a value in it.
#[derive(Drop)]
pub enum Segment {
    /// To the member of this name.
    Member(Text),
    /// To the item of this number, from 0.
    Item(usize),
}

/// A member of an object that does not count, since another one of its name comes later.
#[derive(Drop)]
pub struct RepeatedMember {
    /// The way to the object.
    pub place: Sequence<Segment>,
    /// The name of the member.
    pub name: Text,
}

impl Segment {
    /// A copy, in memory of `alloc`.
    ///
    /// # Errors
    ///
    /// `AllocError` where memory was refused.
    pub fn copy(&self, alloc: Global) -> Result<Segment, AllocError>
        ensures { IfOk result (λ copy. copy ≡ self.now) }
    {
        Ok(match self {
            Segment::Member(name) => Segment::Member(Text::copy(alloc, name.as_str())?),
            Segment::Item(number) => Segment::Item(*number),
        })
    }
}

impl RepeatedMember {
    /// A copy, in memory of `alloc`.
    ///
    /// # Errors
    ///
    /// `AllocError` where memory was refused.
    pub fn copy(&self, alloc: Global) -> Result<RepeatedMember, AllocError>
        ensures { IfOk result (λ copy. copy ≡ self.now) }
    {
        RepeatedMember::at(alloc, self.place.as_slice(), self.name.as_str())
    }

    /// The member of this name in the object at a place.
    pub(crate) fn at(
        alloc: Global,
        place: &[Segment],
        name: &str,
    ) -> Result<RepeatedMember, AllocError>
        ensures { IfOk result (λ member. member ≡ repeated place.now name.now) }
    {
        let place = Sequence::from(copy_place(alloc, place)?);
        let name = Text::copy(alloc, name)?;
        Ok(RepeatedMember { place, name })
    }
}

fn copy_place(alloc: Global, place: &[Segment]) -> Result<Vec<Segment>, AllocError>
    ensures { IfOk result (λ copy. copy.items ≡ place.now) }
{
    let mut copy = Vec::new(alloc);
    for segment in place {
        copy.push(segment.copy(alloc)?)?;
    }
    Ok(copy)
}
