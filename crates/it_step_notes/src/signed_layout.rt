//! A layout with the payload that it is read from.
ghost use Rattle.std.specs.Prelude.{◌≡◌, IfOk};
ghost use Rattle.it_base.specs.Finds.{Finds};
ghost use Rattle.it_docs.specs.Layout.{LayoutOf};

use it_base::sequence::Sequence;
use it_chain::layout_in;
use it_docs::layout::Layout;
use std::alloc::{AllocError, Global};

/// A layout with the payload that it is read from.
#[derive(Drop)]
pub struct SignedLayout {
    /// The payload of its envelope (DSSE v1.0).
    pub payload: Sequence<u8>,
    /// The layout that the payload is (in-toto 1.0, section 4.3).
    pub layout: Layout,
}

impl SignedLayout {
    /// The layout that a payload is, with a copy of that payload.
    pub(crate) fn in_payload(
        alloc: Global,
        payload: &[u8],
    ) -> Result<Option<SignedLayout>, AllocError>
        ensures { IfOk result (Finds (λ signed. (signed.payload ≡ payload.now)
            × LayoutOf payload.now signed.layout)) }
    {
        let Some(layout) = layout_in(alloc, payload)? else {
            return Ok(None);
        };
        let payload = Sequence::from(Vec::from_slice(alloc, payload)?);
        Ok(Some(SignedLayout { payload, layout }))
    }
}
