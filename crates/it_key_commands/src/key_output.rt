//! `itv key`: a file of keys, made from public keys.
ghost use Rattle.std.specs.Prelude.{◌≡◌, ◌≢◌, ◌↔◌, ◌∷◌, ◌++◌, [], IfErr, IfOk, IsErrOf};
ghost use Rattle.std.specs.Prelude.{OnOk, map, option_map, string_bytes};
ghost use Rattle.std.specs.Io.KnownBytes.{Appends};
ghost use Rattle.std.specs.List.{AllZip};
ghost use Rattle.it_base.specs.Writing.{AppendsBeginning};
ghost use Rattle.it_key_commands.specs.KeyFile.{IsKeyFile};
ghost use Rattle.it_key_commands.specs.KeyOutput.{IsKeyOutput, IsKeyOutputFault, IsNotOne};
ghost use Rattle.it_key_commands.specs.KeyOutput.{id_under, keys_of};
ghost use Rattle.it_key_commands.specs.inside.FilesFaults.{IsFilesFault};
ghost use Rattle.it_key_commands.specs.KeyFile.{key_object};
ghost use Rattle.it_key_commands.specs.Signers.{Describes};
ghost use Rattle.it_key_commands.specs.inside.ReadKeys.{IsOfItsText};

use crate::canonical_id::key_id;
use crate::fault::KeyFault;
use crate::key_file::{FileKey, key_in, lines_of};
use crate::keys_file::keys_text;
use it_base::table::Table;
use it_dsse::key_object::KeyObject;
use it_outcome::output::put_text;
use it_outcome::{RunFault, Status};
use std::alloc::{AllocError, Global};
use std::io::Write;

/// Writes the file of the keys in `files`, each the PEM text of a public key (RFC 7468, section
/// 13): one JSON object, compact, and a line feed. It has a key object (in-toto 1.0, section 4.2)
/// under each key's id, the SHA-256 of the object's canonical JSON text as in-toto's own tools form
/// it, or under `name`, if one is given. A key that is given twice is written once. What is written
/// reads back as these keys. The answer is `Good`.
///
/// # Errors
///
/// `NotOneFile` where a name is given without exactly one file, otherwise `BadFile` with the first
/// file that is not a public key, counted from 0, and why; nothing went out. `Run` of `OutOfMemory`
/// where memory was refused; nothing went out. `Run` of `Write` where the output could not be
/// written; a beginning of it went out.
pub fn run_key<W: Write>(
    alloc: Global,
    files: &[&[u8]],
    name: Option<&str>,
    out: &mut W,
) -> Result<Status, KeyFault>
    ensures ok { IfOk result (λ status. (status ≡ Status.Good) × (text : _)
        × IsKeyOutput (map (λ file. file.now) files.now) (option_map (λ text. text.now) name.entry)
        text
        × Appends (W.contents out.old) (W.contents out.new) text) }
    ensures write { IsErrOf result (KeyFault.Run RunFault.Write) → (text : _)
        × IsKeyOutput (map (λ file. file.now) files.now) (option_map (λ text. text.now) name.entry)
        text
        × AppendsBeginning (W.contents out.old) (W.contents out.new) text }
    ensures nothing { IfErr result
        (λ fault. fault ≢ KeyFault.Run RunFault.Write → out.new ≡ out.old) }
    ensures not_one { IsErrOf result KeyFault.NotOneFile
        ↔ IsNotOne (map (λ file. file.now) files.now) (option_map (λ text. text.now) name.entry) }
    ensures faults { IfErr result (IsKeyOutputFault (map (λ file. file.now) files.now)
        (option_map (λ text. text.now) name.entry)) }
{
    if name.is_some() && files.len() != 1 {
        return Err(KeyFault::NotOneFile);
    }
    let objects = objects_in(alloc, files)?;
    let keys = keys_of(alloc, objects, name)?;
    let text = keys_text(alloc, &keys)?;
    let status = put_text(out, text.as_slice())?;
    Ok(status)
}

/// The key objects of the keys in files.
fn objects_in(alloc: Global, files: &[&[u8]]) -> Result<Vec<KeyObject>, KeyFault>
    ensures ok { IfOk result
        (λ objects. AllZip IsKeyFile (map (λ file. file.now) files.now) objects.items) }
    ensures err { IfErr result (IsFilesFault (map (λ file. file.now) files.now)) }
{
    let mut objects = Vec::new(alloc);
    for (place, file) in files.iter().enumerate() {
        let lines = lines_of(alloc, file)?;
        match key_in(lines.as_slice()) {
            Ok(key) => push_object(alloc, &mut objects, &key)?,
            Err(fault) => return Err(KeyFault::BadFile(place, fault)),
        }
    }
    Ok(objects)
}

/// Appends the key object of a key.
fn push_object(
    alloc: Global,
    objects: &mut Vec<KeyObject>,
    key: &FileKey<'_>,
) -> Result<(), AllocError>
    requires { IsOfItsText key.now }
    ensures items { OnOk result (objects.new.items
        ≡ objects.old.items ++ key_object key.now.text.now key.now.key ∷ []) }
    ensures describes { OnOk result
        (Describes (key_object key.now.text.now key.now.key) key.now.key) }
{
    objects.push(key.object(alloc)?)?;
    Ok(())
}

/// The key objects under their ids.
pub(crate) fn keys_of(
    alloc: Global,
    objects: Vec<KeyObject>,
    name: Option<&str>,
) -> Result<Table<KeyObject>, AllocError>
    ensures { IfOk result
        (λ keys. keys ≡ keys_of (option_map (λ text. text.now) name.entry) objects.items) }
{
    let mut keys = Table::new(alloc);
    for object in objects {
        let id = id_under(alloc, &object, name)?;
        keys.insert(id, object)?;
    }
    Ok(keys)
}

/// The id of a key object in the file: the name, if one is given, otherwise its own.
fn id_under(alloc: Global, object: &KeyObject, name: Option<&str>) -> Result<String, AllocError>
    ensures { IfOk result (λ id. string_bytes id
        ≡ id_under (option_map (λ text. text.now) name.entry) object.now) }
{
    match name {
        Some(name) => String::from_str(alloc, name),
        None => key_id(alloc, object),
    }
}
