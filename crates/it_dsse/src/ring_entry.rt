//! The entries of a ring.
ghost use Rattle.std.specs.Prelude.{IfOk};
ghost use Rattle.serde_json.specs.View.{view};
ghost use Rattle.it_base.specs.Finds.{Finds};

use it_base::hexadecimal_text::hexadecimal_part;
use it_base::parts::{FromDocument, part};
use it_base::sequence::Sequence;
use it_base::text::Text;
use serde_json::Value;
use std::alloc::{AllocError, Global};

/// A secret under an id.
#[derive(Drop)]
pub struct RingEntry {
    /// The id by which a layout or a policy names the key.
    pub id: Text,
    /// The bytes of the secret, which may have any length.
    pub secret: Sequence<u8>,
}

impl FromDocument for RingEntry {
    ghost use Rattle.it_dsse.specs.Ring.{IsRingEntry};

    ghost is_of = { IsRingEntry };

    fn from_document(alloc: Global, value: &Value) -> Result<Option<RingEntry>, AllocError> {
        let Some(id) = part::<Text>(alloc, value, "id")? else {
            return Ok(None);
        };
        let Some(secret) = hexadecimal_part(alloc, value, "secret")? else {
            return Ok(None);
        };
        Ok(Some(RingEntry { id, secret }))
    }
}
