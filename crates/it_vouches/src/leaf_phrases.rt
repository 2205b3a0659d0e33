//! The words for what the certificate of a bundle misses to be a leaf.
ghost use Rattle.std.specs.Prelude.{◌≡◌, ◌++◌, OnOk};
ghost use Rattle.it_vouches.specs.Phrases.{extensions_reason_of, leaf_phrase_of};
ghost use Rattle.it_vouches.specs.Phrases.{unread_phrase_of, unread_reason_of};

use it_certificate::{CertificateShortfall, ExtensionsShortfall, LeafShortfall};
use std::alloc::AllocError;

/// Appends why its certificate is no leaf.
pub(crate) fn push_leaf_phrase(text: &mut Vec<u8>, missed: LeafShortfall) -> Result<(), AllocError>
    ensures { OnOk result (text.new.items ≡ text.old.items ++ leaf_phrase_of missed) }
{
    match missed {
        LeafShortfall::Certificate(missed) => push_unread_phrase(text, missed),
        LeafShortfall::Key => {
            text.extend_from_slice(b"its certificate has a key of another curve")
        }
        LeafShortfall::Usage => text.extend_from_slice(b"its certificate is not for signatures"),
        LeafShortfall::Purpose => {
            text.extend_from_slice(b"its certificate is not for code signing")
        }
        LeafShortfall::Authority => {
            text.extend_from_slice(b"its certificate is that of an authority")
        }
        LeafShortfall::Name => text.extend_from_slice(
            b"its certificate does not have exactly one name of a URI, an address or Fulcio's own \
              kind",
        ),
        LeafShortfall::Issuer => {
            text.extend_from_slice(b"its certificate does not name one issuer")
        }
    }
}

/// Appends why its certificate is not read.
fn push_unread_phrase(text: &mut Vec<u8>, missed: CertificateShortfall) -> Result<(), AllocError>
    ensures { OnOk result (text.new.items ≡ text.old.items ++ unread_phrase_of missed) }
{
    text.extend_from_slice(b"its certificate is not read: ")?;
    text.extend_from_slice(unread_reason(missed).as_bytes())
}

/// Why a certificate is not read: the end of a sentence about it, such as "it constrains names".
pub fn unread_reason(missed: CertificateShortfall) -> &'static str
    ensures { result.now ≡ unread_reason_of missed }
{
    match missed {
        CertificateShortfall::Parts => "it does not have the parts of one of version 3",
        CertificateShortfall::Algorithm => "its signature has another algorithm",
        CertificateShortfall::Validity => "its validity has another form",
        CertificateShortfall::Key => "its key is of another kind or form",
        CertificateShortfall::Extensions(missed) => extensions_reason(missed),
    }
}

/// Why the extensions of a certificate are not read.
fn extensions_reason(missed: ExtensionsShortfall) -> &'static str
    ensures { result.now ≡ extensions_reason_of missed }
{
    match missed {
        ExtensionsShortfall::Form => "its extensions have another form",
        ExtensionsShortfall::NameConstraints => "it constrains names",
        ExtensionsShortfall::Critical => "a critical extension of it is not known",
        ExtensionsShortfall::Twice => "it has an extension twice",
        ExtensionsShortfall::Values => "its usage, constraints or purposes have another form",
    }
}
