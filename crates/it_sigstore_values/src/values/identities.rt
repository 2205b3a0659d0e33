//! Which identities key objects describe, and the names of identities.
use it_base::parts::FromDocument;
use it_identity::{Identity, identity_name};
use it_tables::RowFault;
use it_tables::row::{bytes_in, member_in};
use serde_json::Value;
use std::alloc::Global;

/// The digits of the name and the issuer that the key object of a row describes, or `none`.
pub(crate) fn read(alloc: Global, row: &Value) -> Result<String, RowFault> {
    let Some(identity) = Identity::from_document(alloc, member_in(row, "document")?)? else {
        return Ok(String::from_str(alloc, "none")?);
    };
    let name = hex::encode(alloc, identity.name.as_slice())?;
    let issuer = hex::encode(alloc, identity.issuer.as_slice())?;
    Ok(format!(in alloc; "{name} {issuer}")?)
}

/// The digits of the name of an identity, or `none` where a row gives none.
pub(crate) fn name(alloc: Global, row: &Value) -> Result<String, RowFault> {
    let name = bytes_in(alloc, row, "name")?;
    let issuer = bytes_in(alloc, row, "issuer")?;
    match Identity::of(alloc, name.as_slice(), issuer.as_slice())? {
        Some(identity) => Ok(hex::encode(alloc, identity_name(&identity).as_slice())?),
        None => Ok(String::from_str(alloc, "none")?),
    }
}
