//! The ids of keys.
ghost use Rattle.std.specs.Prelude.{◌≡◌, ◌++◌, IfOk, OnOk, string_bytes};
ghost use Rattle.std.specs.List.{flat_map};
ghost use Rattle.it_key_commands.specs.KeyId.{escaped, id_text, key_id, keyval_text, quoted};

use it_dsse::key_object::KeyObject;
use sha2::{Digest, Sha256};
use std::alloc::{AllocError, Global};

/// The id of a key object, as in-toto's own tools form it: the SHA-256 of its canonical JSON text,
/// in 64 lower-case hexadecimal digits.
///
/// # Errors
///
/// `AllocError` where memory was refused.
#[tactic(auto, unfolding(crate::specs::KeyId::key_id))]
pub(crate) fn key_id(alloc: Global, object: &KeyObject) -> Result<String, AllocError>
    ensures { IfOk result (λ id. string_bytes id ≡ key_id object.now) }
{
    let text = id_text(alloc, object)?;
    let digest = Sha256::digest(text.as_slice());
    hex::encode(alloc, digest.as_slice())
}

/// The canonical JSON text of a key object, hashed for its id.
fn id_text(alloc: Global, object: &KeyObject) -> Result<Vec<u8>, AllocError>
    ensures { IfOk result (λ text. text.items ≡ id_text object.now) }
{
    let mut text = Vec::new(alloc);
    push_str(
        &mut text,
        "{\"keyid_hash_algorithms\":[\"sha256\",\"sha512\"],\"keytype\":",
    )?;
    push_quoted(&mut text, object.keytype.as_str())?;
    push_str(&mut text, ",\"keyval\":{")?;
    push_keyval(&mut text, object)?;
    push_str(&mut text, "},\"scheme\":")?;
    push_quoted(&mut text, object.scheme.as_str())?;
    push_str(&mut text, "}")?;
    Ok(text)
}

/// Appends the members of the `keyval` of a key object: those of an identity, where there is one,
/// or the public key.
fn push_keyval(text: &mut Vec<u8>, object: &KeyObject) -> Result<(), AllocError>
    ensures { OnOk result (text.new.items ≡ text.old.items ++ keyval_text object.now) }
{
    if object.identity.as_str().is_empty() {
        push_str(text, "\"public\":")?;
        return push_quoted(text, object.public.as_str());
    }
    push_str(text, "\"identity\":")?;
    push_quoted(text, object.identity.as_str())?;
    push_str(text, ",\"issuer\":")?;
    push_quoted(text, object.issuer.as_str())
}

/// Appends the bytes of a text.
fn push_str(text: &mut Vec<u8>, more: &str) -> Result<(), AllocError>
    ensures { OnOk result (text.new.items ≡ text.old.items ++ more.now) }
{
    text.extend_from_slice(more.as_bytes())
}

/// Appends a text between quotation marks.
#[tactic(auto, unfolding(crate::specs::KeyId::quoted))]
fn push_quoted(text: &mut Vec<u8>, value: &str) -> Result<(), AllocError>
    ensures { OnOk result (text.new.items ≡ text.old.items ++ quoted value.now) }
{
    push_str(text, "\"")?;
    push_escaped(text, value.as_bytes())?;
    push_str(text, "\"")
}

/// Appends the bytes of a text, with a backslash before quotation marks and backslashes.
fn push_escaped(text: &mut Vec<u8>, bytes: &[u8]) -> Result<(), AllocError>
    ensures { OnOk result (text.new.items ≡ text.old.items ++ flat_map escaped bytes.now) }
{
    for byte in bytes {
        push_byte(text, *byte)?;
    }
    Ok(())
}

fn push_byte(text: &mut Vec<u8>, byte: u8) -> Result<(), AllocError>
    ensures { OnOk result (text.new.items ≡ text.old.items ++ escaped byte) }
{
    if byte == b'"' || byte == b'\\' {
        text.push(b'\\')?;
        text.push(byte)?;
        return Ok(());
    }
    text.push(byte)?;
    Ok(())
}
