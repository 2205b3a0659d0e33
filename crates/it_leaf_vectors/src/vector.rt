//! A vector, as a line has it.
ghost use Rattle.std.specs.Prelude.{IfOk};
ghost use Rattle.serde_json.specs.View.{view};
ghost use Rattle.it_base.specs.Finds.{Finds};
ghost use Rattle.it_base.specs.Parts.{IsPart};
ghost use Rattle.it_tables.specs.Part.{IsBoolean, IsNumber};
ghost use Rattle.it_leaf_vectors.specs.Vector.{IsTextPart, Wants};

use it_base::document::member;
use it_base::hexadecimal_text::hexadecimal_part;
use it_base::parts::{FromDocument, part};
use it_base::sequence::Sequence;
use it_base::text::Text;
use it_borrowed::parts::{FromBorrowed, from_bytes};
use it_trust_root::{Authority, RootLog};
use serde_json::Value;
use std::alloc::{AllocError, Global};

/// A leaf, with who may have issued and logged it.
#[derive(Drop)]
pub(crate) struct Vector {
    /// The name, by which readers tell vectors apart.
    pub(crate) name: Text,
    /// The authority.
    pub(crate) authority: Authority,
    /// The certificate logs.
    pub(crate) logs: Sequence<RootLog>,
    /// The bytes of the leaf.
    pub(crate) leaf: Sequence<u8>,
    /// What is wanted.
    pub(crate) wanted: Wanted,
}

/// What is wanted of a vector.
#[derive(Clone, Copy)]
pub(crate) struct Wanted {
    /// The moment, in seconds.
    pub(crate) moment: u64,
    /// Whether the authority should have issued the leaf at that moment.
    pub(crate) issued: bool,
    /// Whether one of the logs should have promised to log the leaf.
    pub(crate) logged: bool,
}

impl FromDocument for Vector {
    ghost use Rattle.it_leaf_vectors.specs.Vector.{IsVector};

    ghost is_of = { IsVector };

    fn from_document(alloc: Global, document: &Value) -> Result<Option<Vector>, AllocError> {
        let Some(name) = part::<Text>(alloc, document, "name")? else {
            return Ok(None);
        };
        let Some(authority) = text_part::<Authority>(alloc, document, "authority")? else {
            return Ok(None);
        };
        let Some(logs) = text_part::<Sequence<RootLog>>(alloc, document, "logs")? else {
            return Ok(None);
        };
        let Some(leaf) = hexadecimal_part(alloc, document, "leaf")? else {
            return Ok(None);
        };
        let Some(wanted) = wanted_part(document) else {
            return Ok(None);
        };
        Ok(Some(Vector {
            name,
            authority,
            logs,
            leaf,
            wanted,
        }))
    }
}

/// What the JSON document is that the text of a member holds.
fn text_part<T: FromBorrowed>(
    alloc: Global,
    document: &Value,
    name: &str,
) -> Result<Option<T>, AllocError>
    ensures { IfOk result (Finds (IsTextPart T.is_of name.now (view document.now))) }
{
    let Some(text) = part::<Text>(alloc, document, name)? else {
        return Ok(None);
    };
    from_bytes::<T>(alloc, text.as_str().as_bytes())
}

fn wanted_part(document: &Value) -> Option<Wanted>
    ensures { Finds (Wants (view document.now)) result }
{
    let moment = number_part(document, "moment")?;
    let issued = boolean_part(document, "issued")?;
    let logged = boolean_part(document, "logged")?;
    Some(Wanted {
        moment,
        issued,
        logged,
    })
}

/// The number that a member is.
fn number_part(document: &Value, name: &str) -> Option<u64>
    ensures { Finds (IsPart IsNumber name.now (view document.now)) result }
{
    member(document, name)?.as_u64()
}

/// The truth value that a member is.
fn boolean_part(document: &Value, name: &str) -> Option<bool>
    ensures { Finds (IsPart IsBoolean name.now (view document.now)) result }
{
    member(document, name)?.as_bool()
}
