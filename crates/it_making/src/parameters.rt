//! The external parameters of a build (SLSA v1.0, `externalParameters`), as they are given.
ghost use Rattle.std.specs.Prelude.{◌↔◌, IfErr, IfOk, IsTrue};
ghost use Rattle.std.specs.Option.{option_copied};
ghost use Rattle.serde_json.specs.View.{view};
ghost use Rattle.it_making.specs.inside.StatementParts.{CanBeParameters, GivesParameters};
ghost use Rattle.it_making.specs.inside.StatementParts.{IsParametersFault};

use crate::nesting::nests_within;
use it_base::document::read_document;
use it_outcome::RunFault;
use serde_json::{Map, Value};
use std::alloc::Global;

// The Statement around them takes three of the 127 levels that a document may nest.
const MOST_LEVELS: u8 = 124;

/// The JSON object of the parameters, or the empty object where none are given.
///
/// # Errors
///
/// `BadParameters` where the bytes are not a JSON object, or nest deeper than 124 levels;
/// `OutOfMemory` where memory was refused.
pub(crate) fn parameters_of(alloc: Global, bytes: Option<&[u8]>) -> Result<Value, RunFault>
    ensures ok { IfOk result (λ value. GivesParameters (option_copied bytes.entry) (view value)) }
    ensures err { IfErr result (IsParametersFault (option_copied bytes.entry)) }
{
    match bytes {
        None => Ok(Value::Object(Map::new(alloc))),
        Some(bytes) => read_parameters(alloc, bytes),
    }
}

fn read_parameters(alloc: Global, bytes: &[u8]) -> Result<Value, RunFault>
    ensures ok { IfOk result (λ value. GivesParameters (Some bytes.now) (view value)) }
    ensures err { IfErr result (IsParametersFault (Some bytes.now)) }
{
    let Some(value) = read_document(alloc, bytes)? else {
        return Err(RunFault::BadParameters);
    };
    if can_be_parameters(&value) {
        Ok(value)
    } else {
        Err(RunFault::BadParameters)
    }
}

/// Whether a JSON value is an object that is not too deep.
fn can_be_parameters(value: &Value) -> bool
    ensures { IsTrue result ↔ CanBeParameters (view value.now) }
{
    value.is_object() && nests_within(value, MOST_LEVELS)
}
