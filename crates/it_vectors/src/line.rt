//! The vector that a line is.
ghost use Rattle.std.specs.Prelude.{IfOk, IsSome, codes};
ghost use Rattle.serde_json.specs.View.{view};
ghost use Rattle.it_base.specs.Document.{member_at};
ghost use Rattle.it_base.specs.Finds.{Finds};
ghost use Rattle.it_base.specs.Parts.{IsPart};
ghost use Rattle.it_tables.specs.Part.{IsBoolean};
ghost use Rattle.it_vectors.specs.Line.{IsKind, IsSigned, Tries};

use crate::kind::Kind;
use crate::vector::{Signed, Tried, Vector};
use it_base::document::member;
use it_base::hexadecimal_text::hexadecimal_part;
use it_base::parts::{FromDocument, part};
use it_base::text::Text;
use serde_json::Value;
use std::alloc::{AllocError, Global};

impl FromDocument for Vector {
    ghost use Rattle.it_vectors.specs.Line.{IsVector};

    ghost is_of = { IsVector };

    fn from_document(alloc: Global, document: &Value) -> Result<Option<Vector>, AllocError> {
        let Some(name) = part::<Text>(alloc, document, "name")? else {
            return Ok(None);
        };
        let Some(kind) = kind_part(document) else {
            return Ok(None);
        };
        let Some(key) = hexadecimal_part(alloc, document, "key")? else {
            return Ok(None);
        };
        let Some((tried, wanted)) = tried_part(alloc, document)? else {
            return Ok(None);
        };
        Ok(Some(Vector {
            name,
            kind,
            key,
            tried,
            wanted,
        }))
    }
}

/// What a document tries, and whether it should hold.
fn tried_part(alloc: Global, document: &Value) -> Result<Option<(Tried, bool)>, AllocError>
    ensures { IfOk result (Finds (λ found. Tries (view document.now) found.0 found.1)) }
{
    if member(document, "is_key").is_some() {
        return Ok(key_trial(document));
    }
    let Some(signed) = signed_part(alloc, document)? else {
        return Ok(None);
    };
    let Some(wanted) = boolean_part(document, "valid") else {
        return Ok(None);
    };
    Ok(Some((Tried::Signature(signed), wanted)))
}

/// The trial of the key alone, where there is a member that says what is wanted of it.
fn key_trial(document: &Value) -> Option<(Tried, bool)>
    requires { IsSome (member_at (codes "is_key") (view document.now)) }
    ensures { Finds (λ found. Tries (view document.now) found.0 found.1) result }
{
    match boolean_part(document, "is_key") {
        Some(wanted) => Some((Tried::KeyAlone, wanted)),
        None => None,
    }
}

/// The message and the signature of a document.
fn signed_part(alloc: Global, document: &Value) -> Result<Option<Signed>, AllocError>
    ensures { IfOk result (Finds (IsSigned (view document.now))) }
{
    let Some(message) = hexadecimal_part(alloc, document, "message")? else {
        return Ok(None);
    };
    let Some(signature) = hexadecimal_part(alloc, document, "signature")? else {
        return Ok(None);
    };
    Ok(Some(Signed { message, signature }))
}

/// The kind that a document names.
fn kind_part(document: &Value) -> Option<Kind>
    ensures { Finds (IsPart IsKind (codes "kind") (view document.now)) result }
{
    Kind::named(member(document, "kind")?.as_str()?)
}

/// The truth value that a member is.
fn boolean_part(document: &Value, name: &str) -> Option<bool>
    ensures { Finds (IsPart IsBoolean name.now (view document.now)) result }
{
    member(document, name)?.as_bool()
}
