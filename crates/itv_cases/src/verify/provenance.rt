//! Which envelope the search for provenance finds, and how many signatures it tries.
use it_digest::compare::DigestSet;
use it_docs::policy_reading::read_policy;
use it_dsse::check::SignatureCheck;
use it_dsse::envelope::Envelope;
use it_dsse::meter::Meter;
use it_prov::fault::ProvError;
use it_prov::find_provenance;
use it_tables::RowFault;
use it_tables::rings::ring_in;
use it_tables::row::{list_in, text_in};
use serde_json::Value;
use std::alloc::{AllocError, Global};

/// The SHA-256 of `abc` (NIST's examples).
const ABC: [u8; 32] = [
    0xba, 0x78, 0x16, 0xbf, 0x8f, 0x01, 0xcf, 0xea, 0x41, 0x41, 0x40, 0xde, 0x5d, 0xae, 0x22, 0x23,
    0xb0, 0x03, 0x61, 0xa3, 0x96, 0x17, 0x7a, 0x9c, 0xb4, 0x10, 0xff, 0x61, 0xf2, 0x00, 0x15, 0xad,
];

/// The digests of the file that is looked for, which is `abc`.
const DIGESTS: DigestSet = DigestSet {
    sha256: Some(ABC),
    sha384: None,
    sha512: None,
};

/// What the search finds for the path of a row, and how many signatures it tries.
pub(crate) fn provenance(alloc: Global, row: &Value) -> Result<String, RowFault> {
    let policy = read_policy(alloc, text_in(row, "policy")?.as_bytes())
        .ok()
        .ok_or(RowFault::BadMember("policy"))?;
    let envelopes = envelopes_in(alloc, row)?;
    let panel: [Box<dyn SignatureCheck>; 1] = [Box::new(alloc, ring_in(alloc, row)?)?];
    let mut meter = Meter { asked: 0 };
    let found = find_provenance(
        alloc,
        text_in(row, "path")?,
        DIGESTS,
        policy.expectations.as_slice(),
        envelopes.as_slice(),
        &panel,
        &mut meter,
    );
    let told = told(alloc, &found)?;
    let asked = meter.asked;
    Ok(format!(in alloc; "{}; {asked} tried", told.as_str())?)
}

fn envelopes_in(alloc: Global, row: &Value) -> Result<Vec<Envelope>, RowFault> {
    let mut envelopes = Vec::new(alloc);
    for text in list_in(row, "envelopes")? {
        envelopes.push(envelope(alloc, text).ok_or(RowFault::BadMember("envelopes"))?)?;
    }
    Ok(envelopes)
}

fn envelope(alloc: Global, text: &Value) -> Option<Envelope> {
    Envelope::read(alloc, text.as_str()?.as_bytes()).ok()
}

/// What the search found, in words.
fn told(alloc: Global, found: &Result<usize, ProvError>) -> Result<String, AllocError> {
    match found {
        Ok(place) => format!(in alloc; "envelope {place}"),
        Err(ProvError::NoExpectation(path)) => {
            format!(in alloc; "no expectation of {}", path.as_str())
        }
        Err(ProvError::NoProvenance(path, None)) => {
            format!(in alloc; "no provenance of {}", path.as_str())
        }
        Err(ProvError::NoProvenance(path, Some(best))) => {
            format!(in alloc; "no provenance of {} over level {best}", path.as_str())
        }
        Err(ProvError::OutOfMemory) => Err(AllocError),
    }
}
