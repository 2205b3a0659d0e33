//! Numbers that an expectation expects and that equal none.
ghost use Rattle.std.specs.Prelude.{◌≡◌, ◌↔◌, ◌∷◌, [], IfOk, IsTrue, string_bytes};
ghost use Rattle.it_base.specs.JsonView.{json_of};
ghost use Rattle.it_findings.specs.UnequalNumbers.{IsUnmet, ParameterFinding, ParameterFindings};

use crate::finding::Finding;
use crate::one::one;
use it_base::text::Text;
use it_base::tree::{Members, Tree};
use std::alloc::{AllocError, Global};

/// What is found in the parameters of the expectation at a place, in the order of their names.
///
/// # Errors
///
/// `AllocError` where memory was refused.
pub(crate) fn parameter_findings(
    alloc: Global,
    place: usize,
    parameters: &Members,
) -> Result<Vec<Finding>, AllocError>
    ensures { IfOk result (λ found. ParameterFindings place parameters.now found.items) }
{
    let mut found = Vec::new(alloc);
    for (name, tree) in parameters.iter() {
        let mut here = parameter_finding(alloc, place, name, tree)?;
        found.append(&mut here)?;
    }
    Ok(found)
}

fn parameter_finding(
    alloc: Global,
    place: usize,
    name: &String,
    tree: &Tree,
) -> Result<Vec<Finding>, AllocError>
    ensures { IfOk result (λ found.
        ParameterFinding place (string_bytes name.now, json_of tree.now) found.items) }
{
    if !is_unmet(tree) {
        return Ok(Vec::new(alloc));
    }
    let name = Text::copy(alloc, name.as_str())?;
    one(alloc, Finding::UnequalNumber { place, name })
}

/// Whether no parameter equals this one, since it has a number that equals none, not even itself.
fn is_unmet(tree: &Tree) -> bool
    ensures { IsTrue result ↔ IsUnmet (json_of tree.now) }
{
    !tree.equals(tree)
}
