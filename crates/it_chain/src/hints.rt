//! Which envelopes a key can have signed under an id, by the hints of their signatures.
ghost use Rattle.std.specs.Prelude.{◌≡◌, ◌++◌, ◌∷◌, [], ℕ, List, IfOk, OnOk, false, map};
ghost use Rattle.std.specs.Prelude.{if◌then◌else◌};
ghost use Rattle.it_chain.specs.inside.Hints.{AreHints, hints_at};
ghost use Rattle.it_chain.specs.inside.Places.{is_last, places_under};

use crate::places::Places;
use it_dsse::envelope::{Envelope, Signature};
use std::alloc::{AllocError, Global};

/// The places of envelopes in a list, by the hints of their signatures (DSSE v1.0, "Protocol").
#[derive(Drop)]
pub(crate) struct Hints {
    /// The places of those with a signature that has no hint, which any key may have made.
    pub(crate) unhinted: Vec<usize>,
    /// The places of the others, under each hint of their signatures.
    pub(crate) named: Places,
}

impl Hints {
    /// The places of these envelopes, by their hints.
    pub fn of(alloc: Global, envelopes: &[&Envelope]) -> Result<Hints, AllocError>
        ensures { IfOk result (AreHints (map (λ envelope. envelope.now) envelopes.now)) }
    {
        let mut unhinted = Vec::new(alloc);
        let mut named = Places::new(alloc);
        for (place, envelope) in envelopes.iter().enumerate() {
            let signatures = envelope.signatures.as_slice();
            if have_hint(signatures, "") {
                unhinted.push(place)?;
            } else {
                add_under_hints(alloc, &mut named, place, signatures)?;
            }
        }
        Ok(Hints { unhinted, named })
    }
}

/// Whether one of the signatures has this hint.
fn have_hint(signatures: &[Signature], hint: &str) -> bool
    ensures { result ≡ hints_at hint.now signatures.now }
{
    signatures
        .iter()
        .any(|signature| hint == signature.keyid.as_str())
}

/// Adds a place under each hint of some signatures, once.
fn add_under_hints(
    alloc: Global,
    named: &mut Places,
    place: usize,
    signatures: &[Signature],
) -> Result<(), AllocError>
    requires { (id : List ℕ) → is_last place (places_under named.old id) ≡ false }
    ensures { OnOk result ((id : List ℕ) → places_under named.new id
        ≡ (if hints_at id signatures.now then places_under named.old id ++ place ∷ []
        else places_under named.old id)) }
{
    for signature in signatures {
        named.add_once(alloc, signature.keyid.as_str(), place)?;
    }
    Ok(())
}
