//! The identity that signed the provenance of a file, in JSON.
ghost use Rattle.std.specs.Prelude.{◌≡◌, ◌++◌, ◌∷◌, [], OnOk, codes};
ghost use Rattle.it_json_report.specs.EvidenceReport.{signer_form, signer_members, signer_object};
ghost use Rattle.it_json_report.specs.Json.{further, member};

use crate::evidence::Signer;
use crate::members::{push_member_name, push_number_member, push_text_member};
use crate::texts::push_text;
use it_base::text::Text;
use std::alloc::{AllocError, Global};

/// The end of the object of a file: the identity that signed, where one did.
pub(super) fn push_signer(
    alloc: Global,
    json: &mut Vec<u8>,
    signer: &Option<Signer>,
) -> Result<(), AllocError>
    ensures { OnOk result (json.new.items
        ≡ json.old.items ++ (further member (signer_members signer.now) ++ codes "}")) }
{
    match signer {
        Some(signer) => push_signing(alloc, json, signer),
        None => Ok(json.push(b'}')?),
    }
}

fn push_signing(alloc: Global, json: &mut Vec<u8>, signer: &Signer) -> Result<(), AllocError>
    ensures { OnOk result (json.new.items ≡ json.old.items
        ++ (further member ((codes "signer", signer_object signer.now) ∷ []) ++ codes "}")) }
{
    push_member_name(json, "signer")?;
    push_identity(
        alloc,
        json,
        &signer.identity,
        &signer.issuer,
        signer.logged_at,
    )?;
    json.push(b'}')?;
    Ok(())
}

/// The object of an identity that signed, with its issuer and the time of the log.
fn push_identity(
    alloc: Global,
    json: &mut Vec<u8>,
    identity: &Text,
    issuer: &Text,
    time: u64,
) -> Result<(), AllocError>
    ensures { OnOk result (json.new.items
        ≡ json.old.items ++ signer_form identity.now issuer.now time) }
{
    json.extend_from_slice(b"{\"identity\":")?;
    push_text(json, identity.as_str())?;
    push_text_member(json, "issuer", issuer.as_str())?;
    push_number_member(alloc, json, "loggedAt", time)?;
    json.push(b'}')?;
    Ok(())
}
