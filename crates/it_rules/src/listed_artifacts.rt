//! The artifacts of a map, in the order of their paths.
ghost use Rattle.std.specs.Prelude.{◌≡◌, IfOk, map};
ghost use Rattle.std.specs.FinMap.{values};
ghost use Rattle.it_rules.specs.Paths.{ArePathsOf};
ghost use Rattle.it_rules.specs.inside.Judged.{AreDigestsOf};

use crate::paths::paths_of;
use it_digest::artifacts::Artifacts;
use it_digest::compact::CompactSet;
use std::alloc::{AllocError, Global};

/// The artifacts of a map, in the order of the bytes of their paths.
#[derive(Drop)]
pub(crate) struct ListedArtifacts<'a> {
    /// Their paths.
    pub paths: Vec<&'a str>,
    /// The digests of each.
    pub digests: Vec<&'a CompactSet>,
}

impl<'a> ListedArtifacts<'a> {
    /// The artifacts of a map.
    pub fn of(alloc: Global, artifacts: &'a Artifacts) -> Result<ListedArtifacts<'a>, AllocError>
        ensures paths { IfOk result (λ listed. ArePathsOf artifacts.now listed.paths.items) }
        ensures digests { IfOk result (λ listed.
            AreDigestsOf artifacts.now listed.paths.items listed.digests.items) }
    {
        let paths = paths_of(alloc, artifacts)?;
        let digests = digests_of(alloc, artifacts)?;
        Ok(ListedArtifacts { paths, digests })
    }
}

fn digests_of(alloc: Global, artifacts: &Artifacts) -> Result<Vec<&CompactSet>, AllocError>
    ensures { IfOk result (λ found.
        map (λ digests. digests.now) found.items ≡ values artifacts.now) }
{
    let mut found = Vec::new(alloc);
    for (_, digests) in artifacts.iter() {
        found.push(digests)?;
    }
    Ok(found)
}
