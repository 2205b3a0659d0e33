//! Certificates as PEM texts (RFC 7468).
ghost use Rattle.std.specs.Prelude.{◌≡◌, ◌↔◌, Some, All, IfOk, IsTrue};
ghost use Rattle.std.specs.List.{concat};
ghost use Rattle.std.specs.Str.Lines.{lines};
ghost use Rattle.it_borrowed.specs.Tree.{as_data};
ghost use Rattle.base64.specs.Engines.{standard};
ghost use Rattle.base64.specs.GeneralPurpose.{decoded_of};
ghost use Rattle.it_base.specs.Finds.{FindsAs};
ghost use Rattle.it_base.specs.Parts.{IsPart};
ghost use Rattle.it_pem.specs.PublicKeyText.{is_body_line};
ghost use Rattle.it_log_entry.specs.CertificateText.{IsCertificateText, IsEncodedCertificate};
ghost use Rattle.it_log_entry.specs.inside.Lines.{IsBetweenMarks, IsCertificateOf, texts_of};

use it_base::base64_text::decode_standard;
use it_borrowed::base64_text::base64_part;
use json::Value;
use std::alloc::{AllocError, Global};
use std::str;

/// The first line.
const BEGIN: &str = "-----BEGIN CERTIFICATE-----";

/// The last line.
const END: &str = "-----END CERTIFICATE-----";

/// Whether the member of this name is base64 of a PEM text of the certificate.
pub(crate) fn has_certificate(
    alloc: Global,
    value: &Value<'_>,
    name: &str,
    certificate: &[u8],
) -> Result<bool, AllocError>
    ensures { IfOk result (λ has. IsTrue has
        ↔ IsPart IsEncodedCertificate name.now (as_data value.now) certificate.now) }
{
    let Some(bytes) = base64_part(alloc, value, name)? else {
        return Ok(false);
    };
    match str::from_utf8(bytes.as_slice()) {
        Ok(text) => is_certificate_text(alloc, text, certificate),
        Err(_) => Ok(false),
    }
}

/// Whether a text is a PEM text of the certificate.
fn is_certificate_text(alloc: Global, text: &str, certificate: &[u8]) -> Result<bool, AllocError>
    ensures { IfOk result (λ is. IsTrue is ↔ IsCertificateText text.now certificate.now) }
{
    let lines = lines_of(alloc, text)?;
    are_certificate(alloc, lines.as_slice(), certificate)
}

/// The lines of a text.
fn lines_of(alloc: Global, text: &str) -> Result<Vec<&str>, AllocError>
    ensures { IfOk result (λ found. texts_of found.items ≡ lines text.now) }
{
    text.lines().collect(alloc)
}

/// Whether lines are those of a PEM text of the certificate.
fn are_certificate(alloc: Global, lines: &[&str], certificate: &[u8]) -> Result<bool, AllocError>
    ensures { IfOk result (λ is. IsTrue is
        ↔ IsCertificateOf (texts_of lines.now) certificate.now) }
{
    let Some(body) = between_marks(lines) else {
        return Ok(false);
    };
    if !are_body_lines(body) {
        return Ok(false);
    }
    let text = join(alloc, body)?;
    encodes(alloc, text.as_slice(), certificate)
}

/// The lines between the marks.
fn between_marks<'a, 'b>(lines: &'b [&'a str]) -> Option<&'b [&'a str]>
    ensures { FindsAs (λ body. texts_of body.now) (IsBetweenMarks (texts_of lines.now)) result }
{
    let (first, others) = lines.split_first()?;
    let (last, body) = others.split_last()?;
    if *first != BEGIN {
        return None;
    }
    if *last != END {
        return None;
    }
    Some(body)
}

/// Whether each line may be one of base64.
fn are_body_lines(lines: &[&str]) -> bool
    ensures { IsTrue result ↔ All (λ line. IsTrue (is_body_line line.now)) lines.now }
{
    for line in lines {
        if !is_body_line(line) {
            return false;
        }
    }
    true
}

fn is_body_line(line: &str) -> bool
    ensures { result ≡ is_body_line line.now }
{
    line.len() > 0 && line.len() < 77
}

/// The lines, one after another.
fn join(alloc: Global, lines: &[&str]) -> Result<Vec<u8>, AllocError>
    ensures { IfOk result (λ text. text.items ≡ concat (texts_of lines.now)) }
{
    let mut text = Vec::new(alloc);
    for line in lines {
        text.extend_from_slice(line.as_bytes())?;
    }
    Ok(text)
}

/// Whether a text is base64 of the bytes, in the standard alphabet.
fn encodes(alloc: Global, text: &[u8], bytes: &[u8]) -> Result<bool, AllocError>
    ensures { IfOk result (λ is. IsTrue is ↔ (decoded_of standard text.now ≡ Some bytes.now)) }
{
    match decode_standard(alloc, text)? {
        Some(found) => Ok(found.as_slice() == bytes),
        None => Ok(false),
    }
}
