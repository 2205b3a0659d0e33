//! The files by which something counts for a step under a key id, and by which of their signatures
//! (in-toto 1.0 section 5.2).
ghost use Rattle.std.specs.Prelude.{◌≡◌, ◌↔◌, IfOk, IsTrue, OnOk, map};
ghost use Rattle.it_base.specs.Finds.{Finds};
ghost use Rattle.it_chain.specs.Signers.{entry_of};
ghost use Rattle.it_step_evidence.specs.inside.Counting.{ArePlaces, HoldsAt, HoldsBody};
ghost use Rattle.it_step_evidence.specs.inside.Counting.{with_place};

use it_base::table::Table;
use it_chain::held_file::HeldFile;
use it_chain::signers::Signer;
use it_chain::{body_in, candidate_in};
use it_dsse::checks::Checks;
use it_dsse::is_signer;
use it_dsse::meter::Meter;
use it_valid_signatures::signature_place;
use std::alloc::{AllocError, Global};

/// The names of those of the files whose envelope a signer's key signed, and which hold a body for
/// a step: each with the place of the signature in the envelope. Of files of one name the last one
/// counts.
pub(crate) fn signed_places<C: Checks>(
    alloc: Global,
    checks: &C,
    step: &str,
    signer: &Signer,
    files: &[&HeldFile],
) -> Result<Table<u64>, AllocError>
    ensures { IfOk result (ArePlaces (C.panel checks.now) step.now
        (map (λ file. file.now) files.now) (entry_of signer.now)) }
{
    let mut places = Table::new(alloc);
    for &file in files {
        let place = signed_place(alloc, checks, step, signer, file)?;
        keep_place(alloc, &mut places, file.name(), place)?;
    }
    Ok(places)
}

/// Puts a place under a name, if there is one.
fn keep_place(
    alloc: Global,
    places: &mut Table<u64>,
    name: &str,
    place: Option<u64>,
) -> Result<(), AllocError>
    ensures { OnOk result (places.new ≡ with_place name.now place places.old) }
{
    if let Some(place) = place {
        places.insert(String::from_str(alloc, name)?, place)?;
    }
    Ok(())
}

/// The place of the signature by a signer's key in the envelope in a file, where the file holds a
/// body for a step.
fn signed_place<C: Checks>(
    alloc: Global,
    checks: &C,
    step: &str,
    signer: &Signer,
    file: &HeldFile,
) -> Result<Option<u64>, AllocError>
    ensures { IfOk result (Finds (HoldsAt (C.panel checks.now) step.now
        signer.now.id.now signer.now.object.now file.now)) }
{
    let Some(envelope) = candidate_in(file) else {
        return Ok(None);
    };
    let holds = holds_body(alloc, checks, step, signer, file)?;
    if !holds {
        return Ok(None);
    }
    signature_place(alloc, envelope, signer.id, signer.object, checks)
}

/// Whether a signer's key signed the envelope in a file, which holds a body for a step. The payload
/// of any other envelope is not read.
fn holds_body<C: Checks>(
    alloc: Global,
    checks: &C,
    step: &str,
    signer: &Signer,
    file: &HeldFile,
) -> Result<bool, AllocError>
    ensures { IfOk result (λ holds. IsTrue holds ↔ HoldsBody (C.panel checks.now) step.now
        signer.now.id.now signer.now.object.now file.now) }
{
    let Some(envelope) = candidate_in(file) else {
        return Ok(false);
    };
    let mut meter = Meter { asked: 0 };
    let signed = is_signer(envelope, signer.id, signer.object, checks, &mut meter)?;
    if !signed {
        return Ok(false);
    }
    let body = body_in(alloc, step, envelope.payload.as_slice())?;
    Ok(body.is_some())
}
