//! Why a signature that was made elsewhere is not taken, as notes say it.
use crate::shown::Shown;
use it_key_commands::SignatureFlaw;
use thiserror::Error;

/// Why the signature in a file is not one of the body by the key under an id.
#[derive(Debug, Drop, Error)]
pub enum SignatureFault {
    /// It is one by the key under another id.
    #[error("{path} is not a signature of the body by {id}: it is one by {signer}")]
    OtherSigner {
        path: Shown,
        id: Shown,
        signer: Shown,
    },
    /// It is this.
    #[error("{path} is not a signature of the body by {id}: {flaw}")]
    Flawed {
        path: Shown,
        id: Shown,
        flaw: SignatureFlaw,
    },
}
