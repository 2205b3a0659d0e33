//! Writing the file of keys.
ghost use Rattle.std.specs.Prelude.{◌≡◌, IfOk, OnOk};
ghost use Rattle.serde_json.specs.Data.{put, string};
ghost use Rattle.serde_json.specs.View.{members_view, view};
ghost use Rattle.it_key_commands.specs.KeysFile.{KeysOf, key_document, keys_form, keyval_document};
ghost use Rattle.it_key_commands.specs.inside.KeyValues.{put_filled};
ghost use Rattle.it_making.specs.ArtifactDocuments.{table_document};

use it_base::table::Table;
use it_dsse::key_object::KeyObject;
use serde_json::{Map, Value};
use std::alloc::{AllocError, Global};

/// The text of a file of keys: one JSON object, compact, and a line feed.
pub(crate) fn keys_text(alloc: Global, keys: &Table<KeyObject>) -> Result<Vec<u8>, AllocError>
    ensures form { IfOk result (λ text. text.items ≡ keys_form keys.now) }
    ensures reads_back { IfOk result (λ text. KeysOf text.items keys.now) }
{
    let value = keys_value(alloc, keys)?;
    let mut text = value.to_vec(alloc)?;
    text.push(b'\n')?;
    Ok(text)
}

fn keys_value(alloc: Global, keys: &Table<KeyObject>) -> Result<Value, AllocError>
    ensures { IfOk result (λ value. view value ≡ table_document key_document keys.now) }
{
    let mut members = Map::new(alloc);
    for (id, key) in keys.iter() {
        let value = key_value(alloc, key)?;
        serde_json::put(&mut members, alloc, id.as_str(), value)?;
    }
    Ok(Value::from(members))
}

fn key_value(alloc: Global, key: &KeyObject) -> Result<Value, AllocError>
    ensures { IfOk result (λ value. view value ≡ key_document key.now) }
{
    let mut members = Map::new(alloc);
    put_text(alloc, &mut members, "keytype", key.keytype.as_str())?;
    let keyval = keyval_value(alloc, key)?;
    serde_json::put(&mut members, alloc, "keyval", keyval)?;
    put_text(alloc, &mut members, "scheme", key.scheme.as_str())?;
    Ok(Value::from(members))
}

fn keyval_value(alloc: Global, key: &KeyObject) -> Result<Value, AllocError>
    ensures { IfOk result (λ value. view value ≡ keyval_document key.now) }
{
    let mut members = Map::new(alloc);
    put_filled(alloc, &mut members, "identity", key.identity.as_str())?;
    put_filled(alloc, &mut members, "issuer", key.issuer.as_str())?;
    put_filled(alloc, &mut members, "public", key.public.as_str())?;
    Ok(Value::from(members))
}

/// Puts a text under a name, unless the text is empty.
fn put_filled(
    alloc: Global,
    members: &mut Map<String, Value>,
    name: &str,
    text: &str,
) -> Result<(), AllocError>
    ensures { OnOk result (members_view members.new.entries
        ≡ put_filled name.now text.now (members_view members.old.entries)) }
{
    if text.is_empty() {
        return Ok(());
    }
    put_text(alloc, members, name, text)
}

/// Puts a text under a name.
fn put_text(
    alloc: Global,
    members: &mut Map<String, Value>,
    name: &str,
    text: &str,
) -> Result<(), AllocError>
    ensures { OnOk result (members_view members.new.entries
        ≡ put name.now (string text.now) (members_view members.old.entries)) }
{
    serde_json::put(members, alloc, name, Value::try_from_str(alloc, text)?)
}
