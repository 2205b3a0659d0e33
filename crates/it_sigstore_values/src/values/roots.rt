//! How trusted roots are read.
use it_log::Window;
use it_tables::RowFault;
use it_tables::row::bytes_in;
use it_trust_root::{Authority, RootLog, TrustedRoot, Unusable, root_or_fault};
use serde_json::Value;
use std::alloc::{AllocError, Global};

/// The trusted root that the bytes of a row are, or why they are none.
pub(crate) fn read(alloc: Global, row: &Value) -> Result<String, RowFault> {
    let bytes = bytes_in(alloc, row, "bytes")?;
    match root_or_fault(alloc, bytes.as_slice()) {
        Ok(root) => Ok(told(alloc, &root)?),
        Err(fault) => Ok(format!(in alloc; "{fault:?}")?),
    }
}

fn told(alloc: Global, root: &TrustedRoot) -> Result<String, AllocError> {
    let logs = logs_told(alloc, root.logs.as_slice())?;
    let authorities = authorities_told(alloc, root.authorities.as_slice())?;
    let certificate_logs = logs_told(alloc, root.certificate_logs.as_slice())?;
    format!(in alloc; "tlogs ({logs}) authorities ({authorities}) ctlogs ({certificate_logs})")
}

/// Each log, followed by a semicolon.
fn logs_told(alloc: Global, logs: &[RootLog]) -> Result<String, AllocError> {
    let mut text = String::new(alloc);
    for log in logs {
        write!(text, "{};", log_told(alloc, log)?)?;
    }
    Ok(text)
}

/// The id, the key and the window of a log, or why it is passed over.
fn log_told(alloc: Global, log: &RootLog) -> Result<String, AllocError> {
    match log {
        RootLog::Usable(log) => {
            let id = hex::encode(alloc, log.id.as_slice())?;
            let key = hex::encode(alloc, log.key.info())?;
            let window = window_told(alloc, &log.window)?;
            format!(in alloc; "{id} {key} {window}")
        }
        RootLog::PassedOver(reason) => reason_told(alloc, reason),
    }
}

fn reason_told(alloc: Global, reason: &Unusable) -> Result<String, AllocError> {
    match reason {
        Unusable::HashAlgorithm(name) => format!(in alloc; "hashAlgorithm {}", name.as_str()),
        Unusable::KeyDetails(name) => format!(in alloc; "keyDetails {}", name.as_str()),
        Unusable::IdLength(count) => format!(in alloc; "keyId {count}"),
    }
}

/// Each authority, followed by a semicolon.
fn authorities_told(alloc: Global, authorities: &[Authority]) -> Result<String, AllocError> {
    let mut text = String::new(alloc);
    for authority in authorities {
        write!(text, "{};", authority_told(alloc, authority)?)?;
    }
    Ok(text)
}

/// The certificates of an authority, each followed by a space, and its window.
fn authority_told(alloc: Global, authority: &Authority) -> Result<String, AllocError> {
    let mut text = String::new(alloc);
    for certificate in authority.certificates.as_slice() {
        write!(text, "{} ", hex::encode(alloc, certificate.as_slice())?)?;
    }
    write!(text, "{}", window_told(alloc, &authority.window)?)?;
    Ok(text)
}

/// The start of a window, and its end or `none`, in nanoseconds.
fn window_told(alloc: Global, window: &Window) -> Result<String, AllocError> {
    let start = window.start;
    match window.end {
        Some(end) => format!(in alloc; "{start} {end}"),
        None => format!(in alloc; "{start} none"),
    }
}
