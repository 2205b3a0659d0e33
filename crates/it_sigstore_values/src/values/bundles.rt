//! How bundles are read.
use it_bundle::{
    BundleCertificate, BundleEntries, ListedEntry, Material, SigstoreBundle, read_bundle,
};
use it_log_entry::LogEntry;
use it_tables::RowFault;
use it_tables::row::bytes_in;
use serde_json::Value;
use std::alloc::{AllocError, Global};

/// The bundle that the bytes of a row are, or `none`.
pub(crate) fn read(alloc: Global, row: &Value) -> Result<String, RowFault> {
    let bytes = bytes_in(alloc, row, "bytes")?;
    match read_bundle(alloc, bytes.as_slice())? {
        Some(bundle) => Ok(told(alloc, &bundle)?),
        None => Ok(String::from_str(alloc, "none")?),
    }
}

/// The version, the envelope and the material of a bundle.
fn told(alloc: Global, bundle: &SigstoreBundle) -> Result<String, AllocError> {
    let version = bundle.version;
    let payload = hex::encode(alloc, bundle.envelope.payload.as_slice())?;
    let signatures = bundle.envelope.signatures.as_slice().len();
    let material = match &bundle.material {
        Some(material) => material_told(alloc, material)?,
        None => String::from_str(alloc, "none")?,
    };
    format!(in alloc; "{version:?} payload {payload} signatures {signatures} material {material}")
}

fn material_told(alloc: Global, material: &Material) -> Result<String, AllocError> {
    let certificate = certificate_told(alloc, &material.certificate)?;
    let entries = entries_told(alloc, &material.entries)?;
    format!(in alloc; "certificate {certificate} entries {entries}")
}

/// The digits of the certificate, or why there is none.
fn certificate_told(alloc: Global, certificate: &BundleCertificate) -> Result<String, AllocError> {
    match certificate {
        BundleCertificate::Bytes(bytes) => hex::encode(alloc, bytes.as_slice()),
        BundleCertificate::Lacks(reason) => format!(in alloc; "{reason:?}"),
    }
}

fn entries_told(alloc: Global, entries: &BundleEntries) -> Result<String, AllocError> {
    match entries {
        BundleEntries::Listed(listed) => listed_told(alloc, listed.as_slice()),
        BundleEntries::Missing => String::from_str(alloc, "Missing"),
        BundleEntries::TooMany => String::from_str(alloc, "TooMany"),
    }
}

/// Each element, followed by a semicolon.
fn listed_told(alloc: Global, listed: &[ListedEntry]) -> Result<String, AllocError> {
    let mut text = String::new(alloc);
    for element in listed {
        match element {
            ListedEntry::Entry(entry) => write!(text, "{};", entry_told(alloc, entry)?)?,
            ListedEntry::Unreadable => write!(text, "Unreadable;")?,
        }
    }
    Ok(text)
}

/// The log, the place, the time, the kind and the body of an entry, and whether it has a proof.
fn entry_told(alloc: Global, entry: &LogEntry) -> Result<String, AllocError> {
    let log = hex::encode(alloc, entry.log_id.as_slice())?;
    let body = hex::encode(alloc, entry.body.as_slice())?;
    let kind = entry.kind.kind.as_str();
    let version = entry.kind.version.as_str();
    let proof = entry.proof.is_some();
    let place = entry.index;
    let time = entry.time;
    format!(in alloc; "{log} {place} {time} {kind} {version} {body} {proof}")
}
