//! Artifact maps as JSON objects (in-toto 1.0, section 4.4).
ghost use Rattle.std.specs.Prelude.{◌≡◌, IfOk};
ghost use Rattle.serde_json.specs.View.{view};
ghost use Rattle.it_base.specs.Table.{IsTable};
ghost use Rattle.it_digest.specs.Digest.{IsDigestSet};
ghost use Rattle.it_making.specs.ArtifactDocuments.{artifacts_document};

use crate::digest_sets::digest_set_value;
use it_digest::artifacts::Artifacts;
use serde_json::{Map, Value, put};
use std::alloc::{AllocError, Global};

/// The JSON object of an artifact map: a member for each path, with its digest set.
pub(crate) fn artifacts_value(alloc: Global, artifacts: &Artifacts) -> Result<Value, AllocError>
    ensures document { IfOk result (λ value. view value ≡ artifacts_document artifacts.now) }
    ensures reads_back { IfOk result
        (λ _. IsTable IsDigestSet (artifacts_document artifacts.now) artifacts.now) }
{
    let mut members = Map::new(alloc);
    for (path, digests) in artifacts.iter() {
        let value = digest_set_value(alloc, &digests.set())?;
        put(&mut members, alloc, path.as_str(), value)?;
    }
    Ok(Value::from(members))
}
