//! Signatures of different keys that share a nonce, as lines.
ghost use Rattle.std.specs.Prelude.{◌≡◌, ◌++◌, OnOk, codes, take};
ghost use Rattle.std.specs.List.{flat_map};
ghost use Rattle.it_check.specs.FindingLine.{start_form};
ghost use Rattle.it_strict.specs.NonceText.{document_form, functionary_form, layout_form};
ghost use Rattle.it_strict.specs.NonceText.{keys_at as at_of, keys_document as document_of};
ghost use Rattle.it_strict.specs.NonceText.{keys_pointer as pointer_of, nonce_line};
ghost use Rattle.it_strict.specs.NonceText.{nonce_sentence, nonces_text, signer_form};

use crate::below_lines::push_document;
use it_base::text::Text;
use it_check::{MOST_WRITTEN, push_more, push_text, push_told};
use it_nonces::{Role, SharedNonce, Signer};
use std::alloc::AllocError;

/// The name of the finding on two keys that signed with one nonce.
pub const SHARED_NONCE_NAME: &str = "shared-nonce";

/// Appends the lines of the first 40, and how many there are where there are more.
#[tactic(auto, unfolding(crate::specs::NonceText::nonces_text))]
pub(crate) fn push_shared_nonces(
    text: &mut Vec<u8>,
    shared: &[SharedNonce],
) -> Result<(), AllocError>
    ensures { OnOk result (text.new.items ≡ text.old.items ++ nonces_text shared.now) }
{
    push_first(text, shared)?;
    push_more(text, "shared nonces", shared.len())
}

/// Appends the lines of the first 40.
fn push_first(text: &mut Vec<u8>, shared: &[SharedNonce]) -> Result<(), AllocError>
    ensures { OnOk result
        (text.new.items ≡ text.old.items ++ flat_map nonce_line (take 40 shared.now)) }
{
    if shared.len() > MOST_WRITTEN {
        push_each(text, &shared[..MOST_WRITTEN])
    } else {
        push_each(text, shared)
    }
}

fn push_each(text: &mut Vec<u8>, shared: &[SharedNonce]) -> Result<(), AllocError>
    ensures { OnOk result (text.new.items ≡ text.old.items ++ flat_map nonce_line shared.now) }
{
    for nonce in shared {
        push_nonce(text, nonce)?;
    }
    Ok(())
}

#[tactic(auto, unfolding(it_check::specs::FindingLine::line_form))]
fn push_nonce(text: &mut Vec<u8>, shared: &SharedNonce) -> Result<(), AllocError>
    ensures { OnOk result (text.new.items ≡ text.old.items ++ nonce_line shared.now) }
{
    push_start_of(text, &shared.signer.role)?;
    push_nonce_sentence(text, shared)?;
    push_text(text, "\n")
}

/// Appends the beginning of the line on somebody who signs in a role.
#[tactic(auto, unfolding(it_check::specs::FindingLine::start_form))]
fn push_start_of(text: &mut Vec<u8>, role: &Role) -> Result<(), AllocError>
    ensures { OnOk result (text.new.items ≡ text.old.items
        ++ start_form (document_form role.now) (codes "shared-nonce") (pointer_of role.now)) }
{
    push_role_document(text, role)?;
    push_text(text, " ")?;
    push_text(text, SHARED_NONCE_NAME)?;
    push_text(text, " ")?;
    push_text(text, keys_pointer(role))?;
    push_text(text, ": ")
}

/// Appends the document that lists the keys of those who sign in a role, as lines name it.
#[tactic(auto, unfolding(crate::specs::NonceText::document_form))]
fn push_role_document(text: &mut Vec<u8>, role: &Role) -> Result<(), AllocError>
    ensures { OnOk result (text.new.items ≡ text.old.items ++ document_form role.now) }
{
    match role {
        Role::Owner => push_text(text, "policy"),
        Role::Functionary { at, .. } => push_layout(text, at.as_slice()),
    }
}

/// Appends the layout at a place, as a document.
#[tactic(auto, unfolding(crate::specs::NonceText::layout_form))]
fn push_layout(text: &mut Vec<u8>, at: &[(Text, Text)]) -> Result<(), AllocError>
    ensures { OnOk result (text.new.items ≡ text.old.items ++ layout_form at.now) }
{
    match at.split_first() {
        Some(_) => push_document(text, at),
        None => push_text(text, "layout"),
    }
}

/// Appends what is said of two keys that signed with one nonce, as a sentence without a full stop,
/// with names written as reports write them: who signed first, and who signed later.
///
/// # Errors
///
/// `AllocError` where memory was refused; a part of the sentence may have been appended then.
#[tactic(auto, unfolding(crate::specs::NonceText::nonce_sentence))]
pub fn push_nonce_sentence(text: &mut Vec<u8>, shared: &SharedNonce) -> Result<(), AllocError>
    ensures { OnOk result (text.new.items ≡ text.old.items ++ nonce_sentence shared.now) }
{
    push_text(text, "two keys signed with one nonce: ")?;
    push_signer(text, &shared.first)?;
    push_text(text, ", and ")?;
    push_signer(text, &shared.signer)
}

/// Appends who signed what.
#[tactic(auto, unfolding(crate::specs::NonceText::signed_form))]
fn push_signer(text: &mut Vec<u8>, signer: &Signer) -> Result<(), AllocError>
    ensures { OnOk result (text.new.items ≡ text.old.items ++ signer_form signer.now) }
{
    match &signer.role {
        Role::Owner => push_told(text, "owner ", &signer.id, " on the layout"),
        Role::Functionary { at, step } => {
            push_functionary(text, &signer.id, at.as_slice(), step)
        }
    }
}

/// Appends a functionary, by the key id and the step.
#[tactic(auto, unfolding(crate::specs::NonceText::functionary_form))]
fn push_functionary(
    text: &mut Vec<u8>,
    id: &Text,
    at: &[(Text, Text)],
    step: &Text,
) -> Result<(), AllocError>
    ensures { OnOk result
        (text.new.items ≡ text.old.items ++ functionary_form id.now at.now step.now) }
{
    push_told(text, "key ", id, " for step ")?;
    push_told(text, "", step, " of the ")?;
    push_layout(text, at)
}

/// The document that lists the keys of those who sign in a role. Takes no memory.
#[tactic(auto, unfolding(crate::specs::NonceText::keys_document))]
pub fn keys_document(role: &Role) -> &'static str
    ensures { result.now ≡ document_of role.now }
{
    match role {
        Role::Owner => "policy",
        Role::Functionary { .. } => "layout",
    }
}

/// The sublayouts down to this document, the outermost first. Takes no memory.
#[tactic(auto, unfolding(crate::specs::NonceText::keys_at))]
pub fn keys_at(role: &Role) -> &[(Text, Text)]
    ensures { result.now ≡ at_of role.now }
{
    match role {
        Role::Owner => &[],
        Role::Functionary { at, .. } => at.as_slice(),
    }
}

/// The place of these keys in it, as a JSON pointer. Takes no memory.
#[tactic(auto, unfolding(crate::specs::NonceText::keys_pointer))]
pub fn keys_pointer(role: &Role) -> &'static str
    ensures { result.now ≡ pointer_of role.now }
{
    match role {
        Role::Owner => "/owners",
        Role::Functionary { .. } => "/keys",
    }
}
