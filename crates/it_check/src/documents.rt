//! The documents of a check, and what they read as.
ghost use Rattle.std.specs.Prelude.{◌≡◌, ◌↔◌, IfOk, IsTrue};
ghost use Rattle.it_borrowed.specs.Tree.{as_data};
ghost use Rattle.it_dsse.specs.Envelope.{EnvelopeOf};
ghost use Rattle.it_check.specs.Documents.{IsBare, IsBareDocument, IsBodyReading, IsLayoutReading};
ghost use Rattle.it_check.specs.Documents.{IsPolicyReading, ReadsAs, whole};

use it_base::sequence::Sequence;
use it_borrowed::document::{is_object, member, read_document};
use it_borrowed::document_text::DocumentText;
use it_borrowed::parts::from_bytes;
use it_docs::layout::Layout;
use it_docs::layout_fault::LayoutFault;
use it_docs::layout_reading::layout_in;
use it_docs::policy::Policy;
use it_docs::policy_fault::PolicyFault;
use it_docs::policy_reading::policy_in;
use it_dsse::envelope::Envelope;
use it_dsse::payload_type::IN_TOTO;
use it_findings::member_finding::MemberFinding;
use it_findings::null_key::NullKey;
use it_findings::{layout_members, layout_nulls, no_thresholds, policy_members, policy_nulls};
use it_report::refusal::{Fault, Refusal};
use json::{Scratch, Value};
use std::alloc::{AllocError, Global};

/// What the bytes of a policy read as.
#[derive(Drop)]
pub enum PolicyReading {
    /// A policy, its keys that are null, and what is found in its members.
    Read {
        /// The policy.
        policy: Policy,
        /// The key ids under which null stands.
        nulls: Sequence<NullKey>,
        /// What is found in its members.
        members: Sequence<MemberFinding>,
    },
    /// No policy: this is the refusal for its first part that fails.
    Bad(Refusal),
}

/// What the bytes of a layout, in its envelope or not, read as.
#[derive(Drop)]
pub enum LayoutReading {
    /// A layout, its keys that are null, its steps without a threshold, and what is found in its
    /// members.
    Read {
        /// The layout.
        layout: Layout,
        /// The key ids under which null stands.
        nulls: Sequence<NullKey>,
        /// The places of the steps without a threshold.
        places: Sequence<usize>,
        /// What is found in its members.
        members: Sequence<MemberFinding>,
    },
    /// No layout: this is the refusal of the envelope, of its type, or for the first part of the
    /// layout that fails.
    Bad(Refusal),
}

/// What the documents of a check read as, each where it is given.
#[derive(Drop)]
pub(crate) struct Readings {
    /// What the policy reads as.
    pub policy: Option<PolicyReading>,
    /// What the layout reads as.
    pub layout: Option<LayoutReading>,
}

/// What a policy reads as, where one is given.
///
/// # Errors
///
/// `AllocError` where memory was refused.
pub(crate) fn policy_given(
    alloc: Global,
    bytes: &Option<Sequence<u8>>,
) -> Result<Option<PolicyReading>, AllocError>
    ensures { IfOk result (ReadsAs IsPolicyReading bytes.now) }
{
    match bytes {
        Some(bytes) => Ok(Some(policy_reading(alloc, bytes.as_slice())?)),
        None => Ok(None),
    }
}

/// What a layout reads as, where one is given.
///
/// # Errors
///
/// `AllocError` where memory was refused.
pub(crate) fn layout_given(
    alloc: Global,
    bytes: &Option<Sequence<u8>>,
) -> Result<Option<LayoutReading>, AllocError>
    ensures { IfOk result (ReadsAs IsLayoutReading bytes.now) }
{
    match bytes {
        Some(bytes) => Ok(Some(layout_reading(alloc, bytes.as_slice())?)),
        None => Ok(None),
    }
}

fn policy_reading(alloc: Global, bytes: &[u8]) -> Result<PolicyReading, AllocError>
    ensures { IfOk result (IsPolicyReading bytes.now) }
{
    let mut scratch = Scratch::new(alloc);
    let text = DocumentText::read(alloc, bytes, &mut scratch)?;
    match policy_in(alloc, &text) {
        Ok(policy) => Ok(PolicyReading::Read {
            policy,
            nulls: Sequence::from(policy_nulls(alloc, &text)?),
            members: Sequence::from(policy_members(alloc, &text)?),
        }),
        Err(PolicyFault::BadPolicy(part)) => {
            Ok(PolicyReading::Bad(whole(alloc, Fault::BadPolicy(part))))
        }
        Err(PolicyFault::OutOfMemory) => Err(AllocError),
    }
}

fn layout_reading(alloc: Global, bytes: &[u8]) -> Result<LayoutReading, AllocError>
    ensures { IfOk result (IsLayoutReading bytes.now) }
{
    match from_bytes::<Envelope>(alloc, bytes)? {
        Some(envelope) => payload_reading(alloc, bytes, &envelope),
        None => bare_reading(alloc, bytes),
    }
}

/// What the payload of an envelope reads as.
fn payload_reading(
    alloc: Global,
    bytes: &[u8],
    envelope: &Envelope,
) -> Result<LayoutReading, AllocError>
    requires { EnvelopeOf bytes.now envelope.now }
    ensures { IfOk result (IsLayoutReading bytes.now) }
{
    if envelope.payload_type.as_str() != IN_TOTO {
        return Ok(LayoutReading::Bad(whole(alloc, Fault::WrongPayloadType)));
    }
    body_reading(alloc, envelope.payload.as_slice())
}

/// What bytes that are no envelope read as.
fn bare_reading(alloc: Global, bytes: &[u8]) -> Result<LayoutReading, AllocError>
    requires { (envelope : _) → ¬ EnvelopeOf bytes.now envelope }
    ensures { IfOk result (IsLayoutReading bytes.now) }
{
    if !is_bare(alloc, bytes)? {
        return Ok(LayoutReading::Bad(whole(alloc, Fault::BadEnvelope)));
    }
    body_reading(alloc, bytes)
}

fn body_reading(alloc: Global, body: &[u8]) -> Result<LayoutReading, AllocError>
    ensures { IfOk result (IsBodyReading body.now) }
{
    let mut scratch = Scratch::new(alloc);
    let text = DocumentText::read(alloc, body, &mut scratch)?;
    match layout_in(alloc, &text) {
        Ok(layout) => Ok(LayoutReading::Read {
            layout,
            nulls: Sequence::from(layout_nulls(alloc, &text)?),
            places: Sequence::from(no_thresholds(alloc, &text)?),
            members: Sequence::from(layout_members(alloc, &text)?),
        }),
        Err(LayoutFault::BadLayout(part)) => {
            Ok(LayoutReading::Bad(whole(alloc, Fault::BadLayout(part))))
        }
        Err(LayoutFault::OutOfMemory) => Err(AllocError),
    }
}

/// Whether the bytes are a JSON object without a payload.
fn is_bare(alloc: Global, bytes: &[u8]) -> Result<bool, AllocError>
    ensures { IfOk result (λ bare. IsTrue bare ↔ IsBare bytes.now) }
{
    let mut scratch = Scratch::new(alloc);
    match read_document(alloc, bytes, &mut scratch)? {
        Some(document) => Ok(is_bare_document(&document)),
        None => Ok(false),
    }
}

fn is_bare_document(document: &Value<'_>) -> bool
    ensures { IsTrue result ↔ IsBareDocument (as_data document.now) }
{
    is_object(document) && member(document, "payload").is_none()
}

/// The refusal of a document as a whole.
fn whole(alloc: Global, fault: Fault) -> Refusal
    ensures { result ≡ whole fault }
{
    Refusal {
        at: Sequence::from(Vec::new(alloc)),
        fault,
    }
}
