//! The predicate of a verification summary (SLSA v1.0, verification summary).
ghost use Rattle.std.specs.Prelude.{◌≡◌, IfOk, map};
ghost use Rattle.serde_json.specs.Data.{array, string};
ghost use Rattle.serde_json.specs.View.{items_of, view};
ghost use Rattle.it_summary.specs.Summary.{least_level, level_names, policy_document};
ghost use Rattle.it_summary.specs.Summary.{summary_predicate};

use base64::engine::general_purpose::URL_SAFE_NO_PAD;
use it_json_report::evidence::{Evidence, FileEvidence};
use serde_json::{Value, json};
use std::alloc::{AllocError, Global};

/// The predicate about a delivery that was accepted, of which the `evidence` tells.
pub(crate) fn predicate_value(
    alloc: Global,
    evidence: &Evidence,
    verifier: &str,
    resource: &str,
) -> Result<Value, AllocError>
    ensures { IfOk result
        (λ value. view value ≡ summary_predicate evidence.now verifier.now resource.now) }
{
    let policy = policy_value(alloc, evidence.policy.as_slice())?;
    let levels = levels_value(alloc, least_level(evidence.files.as_slice()))?;
    let moment = evidence.moment.as_str();
    json!(in alloc; {
        "policy": policy,
        "resourceUri": resource,
        "slsaVersion": "1.0",
        "timeVerified": moment,
        "verificationResult": "PASSED",
        "verifiedLevels": levels,
        "verifier": {"id": verifier}
    })
}

/// The policy that has this SHA-256, named by it.
fn policy_value(alloc: Global, digest: &[u8]) -> Result<Value, AllocError>
    ensures { IfOk result (λ value. view value ≡ policy_document digest.now) }
{
    let digits = hex::encode(alloc, digest)?;
    let name = URL_SAFE_NO_PAD.encode(alloc, digest)?;
    let uri = format!(in alloc; "ni:///sha-256;{name}")?;
    json!(in alloc; {"digest": {"sha256": digits}, "uri": uri})
}

/// The least level that stood for a file, where there is a file.
fn least_level(files: &[FileEvidence]) -> Option<u8>
    ensures { result ≡ least_level files.now }
{
    files.iter().map(|file| file.level).min()
}

/// The list of the levels that were reached.
fn levels_value(alloc: Global, level: Option<u8>) -> Result<Value, AllocError>
    ensures { IfOk result
        (λ value. view value ≡ array (items_of (map string (level_names level)))) }
{
    match level {
        None | Some(0) => json!(in alloc; []),
        Some(level) => {
            let name = format!(in alloc; "SLSA_BUILD_LEVEL_{level}")?;
            json!(in alloc; [name])
        }
    }
}
