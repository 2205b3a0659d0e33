//! What is found against a delivery, as it is written in JSON.
ghost use Rattle.std.specs.Prelude.{◌≡◌, ◌++◌, IfOk, OnOk, map};
ghost use Rattle.it_verify_command.specs.FoundOutput.{found_shown, shown_nonce, shown_once};
ghost use Rattle.it_verify_command.specs.FoundOutput.{shown_untied};

use crate::shown_findings::{push_below, push_shown};
use it_base::sequence::Sequence;
use it_base::text::Text;
use it_json_report::full::ReportFinding;
use it_nonces::{SharedNonce, copied_place};
use it_strict::found::Found;
use it_strict::listed_once::ListedOnce;
use it_strict::{
    LISTED_ONCE_NAME, SHARED_NONCE_NAME, UNTIED_NAME, UNTIED_POINTER, keys_at, keys_document,
    keys_pointer, list_document, push_nonce_sentence, push_once_sentence, push_untied_sentence,
};
use std::alloc::{AllocError, Global};

/// All that is found: in the policy, in the layout and in the sublayouts, then the files that are
/// tied to no step, the paths that one digest list alone names, and then the nonces that are
/// shared.
pub(crate) fn shown_found(alloc: Global, found: &Found) -> Result<Vec<ReportFinding>, AllocError>
    ensures { IfOk result (λ findings. findings.items ≡ found_shown found.now) }
{
    let mut findings = Vec::new(alloc);
    push_shown(alloc, &mut findings, &[], found.of_policy.as_slice())?;
    push_shown(alloc, &mut findings, &[], found.of_layout.as_slice())?;
    push_below(alloc, &mut findings, found.of_sublayouts.as_slice())?;
    push_untied(alloc, &mut findings, found.untied.as_slice())?;
    push_listed_once(alloc, &mut findings, found.listed_once.as_slice())?;
    push_nonces(alloc, &mut findings, found.shared_nonces.as_slice())?;
    Ok(findings)
}

/// Adds the files that are tied to no step, as they are written.
fn push_untied(
    alloc: Global,
    findings: &mut Vec<ReportFinding>,
    untied: &[Text],
) -> Result<(), AllocError>
    ensures { OnOk result (findings.new.items ≡ findings.old.items ++ map shown_untied untied.now) }
{
    for path in untied {
        findings.push(shown_untied(alloc, path)?)?;
    }
    Ok(())
}

fn shown_untied(alloc: Global, path: &Text) -> Result<ReportFinding, AllocError>
    ensures { IfOk result (λ shown. shown ≡ shown_untied path.now) }
{
    let mut sentence = Vec::new(alloc);
    push_untied_sentence(&mut sentence, path)?;
    let place = Vec::from_slice(alloc, UNTIED_POINTER.as_bytes())?;
    Ok(ReportFinding {
        document: Text::copy(alloc, "policy")?,
        at: Sequence::from(Vec::new(alloc)),
        name: Text::copy(alloc, UNTIED_NAME)?,
        place: Sequence::from(place),
        sentence: Sequence::from(sentence),
    })
}

/// Adds the paths that one digest list alone names, as they are written.
fn push_listed_once(
    alloc: Global,
    findings: &mut Vec<ReportFinding>,
    listed: &[ListedOnce],
) -> Result<(), AllocError>
    ensures { OnOk result (findings.new.items ≡ findings.old.items ++ map shown_once listed.now) }
{
    for once in listed {
        findings.push(shown_once(alloc, once)?)?;
    }
    Ok(())
}

/// A digest list has no places, so that the JSON pointer is empty.
fn shown_once(alloc: Global, once: &ListedOnce) -> Result<ReportFinding, AllocError>
    ensures { IfOk result (λ shown. shown ≡ shown_once once.now) }
{
    let mut sentence = Vec::new(alloc);
    push_once_sentence(&mut sentence, once)?;
    Ok(ReportFinding {
        document: Text::copy(alloc, list_document(once.list))?,
        at: Sequence::from(Vec::new(alloc)),
        name: Text::copy(alloc, LISTED_ONCE_NAME)?,
        place: Sequence::from(Vec::new(alloc)),
        sentence: Sequence::from(sentence),
    })
}

/// Adds the nonces that are shared, as they are written.
fn push_nonces(
    alloc: Global,
    findings: &mut Vec<ReportFinding>,
    shared: &[SharedNonce],
) -> Result<(), AllocError>
    ensures { OnOk result (findings.new.items ≡ findings.old.items ++ map shown_nonce shared.now) }
{
    for nonce in shared {
        findings.push(shown_nonce(alloc, nonce)?)?;
    }
    Ok(())
}

fn shown_nonce(alloc: Global, shared: &SharedNonce) -> Result<ReportFinding, AllocError>
    ensures { IfOk result (λ shown. shown ≡ shown_nonce shared.now) }
{
    let role = &shared.signer.role;
    let place = Vec::from_slice(alloc, keys_pointer(role).as_bytes())?;
    let mut sentence = Vec::new(alloc);
    push_nonce_sentence(&mut sentence, shared)?;
    Ok(ReportFinding {
        document: Text::copy(alloc, keys_document(role))?,
        at: copied_place(alloc, keys_at(role))?,
        name: Text::copy(alloc, SHARED_NONCE_NAME)?,
        place: Sequence::from(place),
        sentence: Sequence::from(sentence),
    })
}
