//! Public keys in files.
ghost use Rattle.std.specs.Prelude.{◌≡◌, ◌↔◌, [], ℕ, List, IfOk, IsTrue, MatchResult, None, length};
ghost use Rattle.std.specs.Str.{trim_end};
ghost use Rattle.hex.specs.Hex.{decode_sized, encode_lower};
ghost use Rattle.it_key_commands.specs.KeyFile.{BeginsLater, IsLinesFault, IsOtherFile, key_object};
ghost use Rattle.it_key_commands.specs.KeyFile.{other_text, public_label, without_returns};
ghost use Rattle.it_key_commands.specs.Signers.{Describes};
ghost use Rattle.it_key_commands.specs.inside.ReadKeys.{IsOfItsText, IsReadKey, IsTextFault};
ghost use Rattle.it_pem.specs.Label.{HasLabel};
ghost use Rattle.it_pem.specs.PublicKeyText.{info_in};
ghost use Rattle.it_public_keys.specs.declared.key.Key.TheVariants.{Ed25519};

use crate::fault::{FileFault, OtherFile, OtherText};
use crate::key_info::key_of;
use it_base::text::Text;
use it_dsse::key_object::KeyObject;
use it_pem::{label_of, public_key_info};
use it_public_keys::key::Key;
use std::alloc::{AllocError, Global};

/// A public key, and the text that it was read from.
#[derive(Drop)]
pub(crate) struct FileKey<'t> {
    key: Key,
    text: &'t str,
}

/// The lines of a file, without carriage returns.
pub(crate) fn lines_of(alloc: Global, file: &[u8]) -> Result<Vec<u8>, AllocError>
    ensures { IfOk result (λ lines. lines.items ≡ without_returns file.now) }
{
    let mut lines = Vec::new(alloc);
    for byte in file {
        if *byte != b'\r' {
            lines.push(*byte)?;
        }
    }
    Ok(lines)
}

/// The public key in these lines.
pub(crate) fn key_in(lines: &[u8]) -> Result<FileKey<'_>, FileFault>
    ensures { MatchResult result (IsReadKey lines.now) (IsLinesFault lines.now) }
{
    let Ok(text) = str::from_utf8(lines) else {
        return Err(FileFault::NotPem(OtherFile::Other));
    };
    let text = text.trim_end();
    let Some(info) = public_key_info(text) else {
        return Err(text_fault(text));
    };
    match key_of(info.as_bytes()) {
        Ok(key) => Ok(FileKey { key, text }),
        Err(fault) => Err(fault),
    }
}

/// Why a text is not the PEM text of a public key.
fn text_fault(text: &str) -> FileFault
    requires { info_in text.now ≡ None }
    ensures { IsTextFault text.now result }
{
    match label_of(text) {
        Some("PUBLIC KEY") => FileFault::NotPem(labelled_file(text)),
        Some(label) => FileFault::Other(other_text(label)),
        None => FileFault::NotPem(other_file(text)),
    }
}

/// What a text is that begins as a public key does.
fn labelled_file(text: &str) -> OtherFile
    requires { HasLabel text.now public_label }
    ensures { IsOtherFile text.now result }
{
    if begins_later(text) {
        OtherFile::Several
    } else {
        OtherFile::Other
    }
}

/// What a text without a label is.
fn other_file(text: &str) -> OtherFile
    requires { (label : List ℕ) → ¬ HasLabel text.now label }
    ensures { IsOtherFile text.now result }
{
    if text.is_empty() {
        return OtherFile::Empty;
    }
    let bytes = text.as_bytes();
    if bytes.starts_with(b"ssh-") || bytes.starts_with(b"ecdsa-sha2-") {
        return OtherFile::OpenSsh;
    }
    if bytes.starts_with(b"{") {
        return OtherFile::Json;
    }
    if begins_later(text) {
        return OtherFile::TextBefore;
    }
    OtherFile::Other
}

/// Whether a line after the first begins as a public key does (RFC 7468, section 13).
fn begins_later(text: &str) -> bool
    ensures { IsTrue result ↔ BeginsLater text.now }
{
    text.contains("\n-----BEGIN PUBLIC KEY-----")
}

/// What a PEM text is, by its label.
fn other_text(label: &str) -> OtherText
    ensures { result ≡ other_text label.now }
{
    match label {
        "PRIVATE KEY" => OtherText::PrivateKey,
        "ENCRYPTED PRIVATE KEY" => OtherText::PrivateKey,
        "RSA PRIVATE KEY" => OtherText::PrivateKey,
        "EC PRIVATE KEY" => OtherText::PrivateKey,
        "OPENSSH PRIVATE KEY" => OtherText::PrivateKey,
        "RSA PUBLIC KEY" => OtherText::RsaPublicKey,
        "CERTIFICATE" => OtherText::Certificate,
        _ => OtherText::Unknown,
    }
}

impl FileKey<'_> {
    /// The key object of the key, which describes it.
    pub(crate) fn object(&self, alloc: Global) -> Result<KeyObject, AllocError>
        requires { IsOfItsText self.now }
        ensures object { IfOk result
            (λ object. object ≡ key_object self.now.text.now self.now.key) }
        ensures describes { IfOk result
            (λ _. Describes (key_object self.now.text.now self.now.key) self.now.key) }
    {
        match &self.key {
            Key::Ed25519(key) => ed25519_object(alloc, key),
            Key::P256(_) => text_object(alloc, "ecdsa", "ecdsa-sha2-nistp256", self.text),
            Key::P384(_) => text_object(alloc, "ecdsa", "ecdsa-sha2-nistp384", self.text),
            Key::Rsa(_) => text_object(alloc, "rsa", "rsassa-pss-sha256", self.text),
        }
    }
}

/// The key object of a key that is written as its text.
fn text_object(
    alloc: Global,
    keytype: &str,
    scheme: &str,
    text: &str,
) -> Result<KeyObject, AllocError>
    ensures { IfOk result (λ object. object ≡ record {
      keytype = keytype.now;
      scheme = scheme.now;
      public = text.now;
      identity = [];
      issuer = [];
    }) }
{
    Ok(KeyObject {
        keytype: Text::copy(alloc, keytype)?,
        scheme: Text::copy(alloc, scheme)?,
        public: Text::copy(alloc, text)?,
        identity: Text::copy(alloc, "")?,
        issuer: Text::copy(alloc, "")?,
    })
}

/// The key object of an Ed25519 key, as in-toto's own tools write it.
fn ed25519_object(alloc: Global, key: &it_ed25519::PublicKey) -> Result<KeyObject, AllocError>
    ensures object { IfOk result (λ object. object ≡ key_object [] (Ed25519 key.now)) }
    ensures describes { IfOk result
        (λ _. Describes (key_object [] (Ed25519 key.now)) (Ed25519 key.now)) }
{
    Ok(KeyObject {
        keytype: Text::copy(alloc, "ed25519")?,
        scheme: Text::copy(alloc, "ed25519")?,
        public: digits_of(alloc, key.as_bytes().as_slice())?,
        identity: Text::copy(alloc, "")?,
        issuer: Text::copy(alloc, "")?,
    })
}

/// The lower-case hexadecimal digits of bytes, which read back as them.
fn digits_of(alloc: Global, bytes: &[u8]) -> Result<Text, AllocError>
    ensures digits { IfOk result (λ text. text ≡ encode_lower bytes.now) }
    ensures reads_back { IfOk result
        (λ _. decode_sized (encode_lower bytes.now) (length bytes.now) ≡ Ok bytes.now) }
{
    Ok(Text::from(hex::encode(alloc, bytes)?))
}
