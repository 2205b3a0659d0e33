//! The parts of the body of an entry that say what the entry is about.
ghost use Rattle.it_borrowed.specs.Tree.{as_data};
ghost use Rattle.it_base.specs.Finds.{FindsAs};
ghost use Rattle.it_log_entry.specs.BodyParts.{AreDsseParts, AreIntotoParts, ArePartsOf, HasParts};
ghost use Rattle.it_log_entry.specs.inside.Said.{said_by};

use crate::kind::EntryKind;
use crate::only_item::only_item;
use crate::read_kind::{is_dsse, is_intoto};
use it_borrowed::document::member;
use it_borrowed::text::has_text;
use json::Value;

/// The parts of a body that say what its entry is about.
#[derive(Clone, Copy, Drop)]
pub(crate) struct BodyParts<'v, 't> {
    /// The hash of the payload.
    pub(crate) hash: &'v Value<'t>,
    /// The envelope, which bodies of kind `intoto` alone have.
    pub(crate) envelope: Option<&'v Value<'t>>,
    /// The only signature, with its certificate.
    pub(crate) signature: &'v Value<'t>,
}

/// The parts of a body of this kind.
pub(crate) fn parts_in<'v, 't>(
    kind: &EntryKind,
    document: &'v Value<'t>,
) -> Option<BodyParts<'v, 't>>
    ensures { FindsAs said_by (HasParts kind.now (as_data document.now)) result }
{
    if !has_text(document, "kind", kind.kind.as_str()) {
        return None;
    }
    if !has_text(document, "apiVersion", kind.version.as_str()) {
        return None;
    }
    parts_of(kind, member(document, "spec")?)
}

/// The parts of the `spec` of a body of this kind.
fn parts_of<'v, 't>(kind: &EntryKind, spec: &'v Value<'t>) -> Option<BodyParts<'v, 't>>
    ensures { FindsAs said_by (ArePartsOf kind.now (as_data spec.now)) result }
{
    if is_dsse(kind) {
        return dsse_parts(spec);
    }
    if is_intoto(kind) {
        return intoto_parts(spec);
    }
    None
}

fn dsse_parts<'v, 't>(spec: &'v Value<'t>) -> Option<BodyParts<'v, 't>>
    ensures { FindsAs said_by (AreDsseParts (as_data spec.now)) result }
{
    let hash = member(spec, "payloadHash")?;
    let signature = only_item(spec, "signatures")?;
    Some(BodyParts {
        hash,
        envelope: None,
        signature,
    })
}

fn intoto_parts<'v, 't>(spec: &'v Value<'t>) -> Option<BodyParts<'v, 't>>
    ensures { FindsAs said_by (AreIntotoParts (as_data spec.now)) result }
{
    let content = member(spec, "content")?;
    let envelope = member(content, "envelope")?;
    let hash = member(content, "payloadHash")?;
    let signature = only_item(envelope, "signatures")?;
    Some(BodyParts {
        hash,
        envelope: Some(envelope),
        signature,
    })
}
