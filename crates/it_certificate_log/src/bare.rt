//! Certificates without their timestamps.
ghost use Rattle.std.specs.Prelude.{◌≡◌, ◌++◌, ◌^◌, ◌<◌, ◌≤◌, ℕ, List, [], ◌∷◌, IfOk, OnOk, filter};
ghost use Rattle.std.specs.Prelude.{flat_map, length, map};
ghost use Rattle.it_der.specs.Element.{bytes_of};
ghost use Rattle.it_certificate.specs.Certificate.{facts_of};
ghost use Rattle.it_certificate.specs.Extension.{AreExtensions, IsExtension, stated_of};
ghost use Rattle.it_certificate.specs.Parts.{signed_elements};
ghost use Rattle.it_certificate_log.specs.Bare.{WasRead, bare_bytes, extension_bytes};
ghost use Rattle.it_certificate_log.specs.Bare.{extensions_part, is_other, with_extensions};
ghost use Rattle.it_certificate_log.specs.inside.Critical.{critical_bytes};
ghost use Rattle.it_certificate_log.specs.inside.Short.{IsShortExtension};

use it_certificate::{Certificate, Extension, TIMESTAMPS};
use it_der::append_element;
use std::alloc::{AllocError, Global};

const BOOLEAN: u8 = 1;

const INTEGER: u8 = 2;

const OCTET_STRING: u8 = 4;

const OBJECT_IDENTIFIER: u8 = 6;

const SEQUENCE: u8 = 48;

/// The tags of the version and of the extensions.
const OF_VERSION: u8 = 160;

const OF_EXTENSIONS: u8 = 163;

/// An INTEGER, the number of version 3.
const VERSION: [u8; 3] = [2, 1, 2];

const TRUE: [u8; 1] = [255];

/// What the signature of a certificate would be of, had it no timestamps: the bytes by which a
/// certificate log knew it (RFC 6962, section 3.2: the TBSCertificate of a precertificate).
///
/// # Errors
///
/// `AllocError` where memory was refused.
pub fn bare_bytes(alloc: Global, certificate: &Certificate<'_>) -> Result<Vec<u8>, AllocError>
    requires { WasRead certificate.now }
    ensures bare { IfOk result (λ v. v.items ≡ bare_bytes (facts_of certificate.now)) }
    ensures short { IfOk result (λ v. length v.items < 2 ^ 24) }
{
    let extensions = part_of_others(alloc, &certificate.extensions)?;
    let content = content_with(alloc, certificate, &extensions)?;
    let mut bytes = Vec::new(alloc);
    append_element(&mut bytes, SEQUENCE, &content)?;
    Ok(bytes)
}

/// The content of a certificate's TBSCertificate with this part for its own extensions.
fn content_with(
    alloc: Global,
    certificate: &Certificate<'_>,
    extensions: &[u8],
) -> Result<Vec<u8>, AllocError>
    requires read { WasRead certificate.now }
    requires short { length extensions.now ≤ length certificate.now.parts.extensions.now }
    ensures { IfOk result (λ v. v.items
        ≡ bytes_of (signed_elements (with_extensions (facts_of certificate.now) extensions.now))) }
{
    let parts = &certificate.parts;
    let mut content = Vec::new(alloc);
    append_element(&mut content, OF_VERSION, &VERSION)?;
    append_element(&mut content, INTEGER, parts.serial)?;
    append_element(&mut content, SEQUENCE, parts.algorithm)?;
    append_element(&mut content, SEQUENCE, parts.issuer)?;
    append_element(&mut content, SEQUENCE, parts.validity)?;
    append_element(&mut content, SEQUENCE, parts.subject)?;
    append_element(&mut content, SEQUENCE, parts.key)?;
    append_element(&mut content, OF_EXTENSIONS, extensions)?;
    Ok(content)
}

/// The part of a certificate that has these extensions, all but the timestamps.
fn part_of_others(alloc: Global, extensions: &[Extension<'_>]) -> Result<Vec<u8>, AllocError>
    requires { (content : List ℕ) × AreExtensions content (map stated_of extensions.now) }
    ensures { IfOk result (λ v. v.items
        ≡ extensions_part (filter is_other (map stated_of extensions.now))) }
{
    let mut content = Vec::new(alloc);
    for extension in extensions {
        append_other(alloc, &mut content, extension)?;
    }
    let mut part = Vec::new(alloc);
    append_element(&mut part, SEQUENCE, &content)?;
    Ok(part)
}

/// Writes an extension after the bytes, unless it is that of timestamps.
fn append_other(
    alloc: Global,
    bytes: &mut Vec<u8>,
    extension: &Extension<'_>,
) -> Result<(), AllocError>
    requires { IsShortExtension (stated_of extension.now) }
    ensures { OnOk result (bytes.new.items ≡ bytes.old.items
        ++ flat_map extension_bytes (filter is_other (stated_of extension.now ∷ []))) }
{
    if extension.id == TIMESTAMPS.as_slice() {
        return Ok(());
    }
    let content = extension_content(alloc, extension)?;
    append_element(bytes, SEQUENCE, &content)
}

/// The content of an extension.
fn extension_content(alloc: Global, extension: &Extension<'_>) -> Result<Vec<u8>, AllocError>
    requires { IsShortExtension (stated_of extension.now) }
    ensures { IfOk result (λ v. IsExtension v.items (stated_of extension.now)) }
{
    let mut content = Vec::new(alloc);
    append_element(&mut content, OBJECT_IDENTIFIER, extension.id)?;
    append_critical(&mut content, extension.critical)?;
    append_element(&mut content, OCTET_STRING, extension.value)?;
    Ok(content)
}

/// Writes after the bytes what says that an extension is critical, where it is.
fn append_critical(bytes: &mut Vec<u8>, critical: bool) -> Result<(), AllocError>
    ensures { OnOk result (bytes.new.items ≡ bytes.old.items ++ critical_bytes critical) }
{
    if critical {
        append_element(bytes, BOOLEAN, &TRUE)
    } else {
        Ok(())
    }
}
