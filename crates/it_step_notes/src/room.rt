//! How many signatures are still checked that a verification does not check.

use it_docs::layout::Layout;
use it_dsse::envelope::{Envelope, Signature};

/// The most signatures of the files of a step that are checked with keys that the step does not
/// list.
const MOST_SIGNATURES: usize = 40;

/// How many signatures may still be checked with keys that the step does not list.
#[derive(Drop)]
pub(crate) struct Room {
    signatures: usize,
}

impl Room {
    /// All of them.
    pub fn new() -> Room {
        Room {
            signatures: MOST_SIGNATURES,
        }
    }

    /// Whether there is room for the signatures of an envelope, by those keys of a layout that they
    /// name. If so, there is less room from then on.
    pub fn takes(&mut self, layout: &Layout, envelope: &Envelope) -> bool {
        let needed = most_checks(layout, envelope.signatures.as_slice());
        if needed > self.signatures {
            return false;
        }
        self.signatures -= needed;
        true
    }
}

/// No fewer than the checks of signatures by those keys of a layout that they name: each by the key
/// that it names, and each without a hint by every key that is named.
fn most_checks(layout: &Layout, signatures: &[Signature]) -> usize {
    let mut named: usize = 0;
    let mut unhinted: usize = 0;
    for signature in signatures {
        let hint = signature.keyid.as_str();
        if layout.keys.get(hint).is_some() {
            named = named.saturating_add(1);
        }
        if hint.is_empty() {
            unhinted = unhinted.saturating_add(1);
        }
    }
    signatures
        .len()
        .saturating_add(named.saturating_mul(unhinted))
}
