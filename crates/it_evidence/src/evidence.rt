//! What stands behind a delivery that is accepted (this profile's choice of what is told).
ghost use Rattle.std.specs.Prelude.{IfOk, codes};
ghost use Rattle.it_base.specs.Document.{OfDocument};
ghost use Rattle.it_base.specs.Parts.{IsPart};
ghost use Rattle.it_base.specs.Text.{IsText};
ghost use Rattle.it_docs.specs.Layout.{LayoutOf};
ghost use Rattle.it_verify.specs.Grounds.{AreGrounds};
ghost use Rattle.it_evidence.specs.Evidence.{IsBehind};

use it_base::sequence::Sequence;
use it_base::text::Text;
use it_borrowed::parts::part_in;
use it_dsse::checks::Checks;
use it_file_evidence::file_evidence;
use it_json_report::evidence::Evidence;
use it_step_evidence::step_evidence;
use it_verify::documents::Documents;
use it_verify::grounds::Grounds;
use it_verify::inputs::Inputs;
use it_vouched::Vouched;
use sha2::{Digest, Sha256};
use std::alloc::{AllocError, Global};

/// What stands behind a delivery that is accepted (in-toto 1.0 section 5.2; SLSA v1.0, verifying
/// artifacts). The `grounds` show that the delivered files of the `inputs` were made as the owners
/// prescribed. Signatures are checked by the `checks`. Who signed the provenance of a file is told
/// as far as what is `vouched` says it.
///
/// # Errors
///
/// `AllocError` where memory was refused, or where the checks refuse to check more signatures.
pub fn evidence_of<C: Checks>(
    alloc: Global,
    inputs: &Inputs,
    grounds: &Grounds,
    checks: &C,
    vouched: &[Vouched],
) -> Result<Evidence, AllocError>
    requires { AreGrounds (C.panel checks.now) inputs.now grounds.now }
    ensures { IfOk result (IsBehind (C.panel checks.now) vouched.now inputs.now) }
{
    let documents = &grounds.documents;
    let expires = expires_of(alloc, documents)?;
    let steps = step_evidence(alloc, &documents.layout, &inputs.links, checks)?;
    let files = file_evidence(alloc, grounds, checks, vouched)?;
    Ok(Evidence {
        moment: Text::copy(alloc, inputs.moment.as_str())?,
        policy: Sha256::digest(inputs.policy.as_slice()),
        layout: Sha256::digest(inputs.layout.as_slice()),
        expires,
        steps: Sequence::from(steps),
        files: Sequence::from(files),
    })
}

/// The member `expires` of the layout, as it is written there (in-toto 1.0, section 4.3).
fn expires_of(alloc: Global, documents: &Documents) -> Result<Text, AllocError>
    requires { LayoutOf documents.now.envelope.payload documents.now.layout }
    ensures { IfOk result
        (OfDocument (IsPart IsText (codes "expires")) documents.now.envelope.payload) }
{
    match part_in::<Text>(alloc, documents.envelope.payload.as_slice(), "expires")? {
        Some(expires) => Ok(expires),
        None => unreachable!(),
    }
}
