//! What the library says of a vector.
ghost use Rattle.std.specs.Prelude.{◌≡◌, ◌↔◌, IfOk, IsTrue};
ghost use Rattle.it_leaf_vectors.specs.Agreement.{Issues, Promises};

use crate::vector::{Vector, Wanted};
use it_budget::Budget;
use it_certificate::read_certificate;
use it_issued::{issue_shortfall, log_shortfall, read_authority};
use std::alloc::{AllocError, Global};

/// What was found of a leaf.
#[derive(Clone, Copy)]
pub(crate) struct Found {
    /// Whether the authority issued it.
    pub(crate) issued: bool,
    /// Whether one of the logs promised to log it.
    pub(crate) logged: bool,
}

impl Found {
    /// Whether that is what is wanted.
    pub(crate) fn agrees(self, wanted: Wanted) -> bool
        ensures { IsTrue result ↔ ((self.issued ≡ wanted.issued)
            × (self.logged ≡ wanted.logged)) }
    {
        self.issued == wanted.issued && self.logged == wanted.logged
    }
}

/// What the library says of a vector: nothing is issued or logged by an authority that cannot be
/// used.
///
/// # Errors
///
/// `AllocError` where memory was refused.
pub(crate) fn find(alloc: Global, vector: &Vector) -> Result<Found, AllocError>
    ensures { IfOk result (λ found. (IsTrue found.issued ↔ Issues vector.now)
        × (IsTrue found.logged ↔ Promises vector.now)) }
{
    let neither = Found {
        issued: false,
        logged: false,
    };
    let mut budget = Budget::new(u64::MAX);
    let Some(authority) = read_authority(alloc, &mut budget, &vector.authority)? else {
        return Ok(neither);
    };
    let bytes = vector.leaf.as_slice();
    let Some(leaf) = read_certificate(alloc, bytes)? else {
        return Ok(neither);
    };
    let certificates = authority.certificates.as_slice();
    let Some(issuer) = certificates.first() else {
        return Ok(neither);
    };
    let moment = vector.wanted.moment;
    let not_issued = issue_shortfall(alloc, &mut budget, &authority, &leaf, moment)?;
    let logs = vector.logs.as_slice();
    let not_logged = log_shortfall(alloc, &mut budget, logs, issuer, &leaf)?;
    Ok(Found {
        issued: not_issued.is_none(),
        logged: not_logged.is_none(),
    })
}
