//! Why a signature is not written.
ghost use Rattle.std.specs.Prelude.{◌≡◌};

use it_base::table::Table;
use it_disk::{Fault, Shown, SignatureFault};
use it_dsse::key_object::KeyObject;
use it_key_commands::{KeyFault, MadeSignature, SignatureFlaw, other_signer};
use it_outcome::RunFault;
use it_words::words::sign_words::MadePaths;
use std::alloc::{AllocError, Global};

/// A signature that was made elsewhere, the public keys, and the files of both.
#[derive(Clone, Copy)]
pub(crate) struct GivenSignature<'a> {
    /// The files.
    pub(crate) paths: &'a MadePaths,
    /// The signature, with its body and its key's id.
    pub(crate) made: MadeSignature<'a>,
    /// The public keys.
    pub(crate) keys: &'a Table<KeyObject>,
}

/// The fault of an id under which the ring or the file of keys at a path has no key.
pub(crate) fn unknown_key(alloc: Global, path: &str, id: &str) -> Result<Fault, AllocError> {
    Ok(Fault::UnknownKey {
        path: Shown::of(alloc, path)?,
        id: Shown::of(alloc, id)?,
    })
}

/// The fault of a signature that was made elsewhere, with the paths and the id that it is about.
pub(crate) fn made_fault(
    alloc: Global,
    given: &GivenSignature<'_>,
    fault: KeyFault,
) -> Result<Fault, AllocError>
    ensures { fault ≡ KeyFault.Run RunFault.Write → result ≡ Ok (Fault.Run RunFault.Write) }
{
    let path = given.paths.keys.as_str();
    let id = given.made.id;
    match fault {
        KeyFault::UnknownId => unknown_key(alloc, path, id),
        KeyFault::NoPublicKey => Ok(Fault::NoPublicKey {
            path: Shown::of(alloc, path)?,
            id: Shown::of(alloc, id)?,
        }),
        KeyFault::BadSignature(flaw) => bad_signature(alloc, given, flaw),
        KeyFault::Run(fault) => Ok(Fault::Run(fault)),
        fault => Fault::of_key(alloc, fault),
    }
}

/// The fault of a signature that is not valid for the key of its id: whose it is, or what is found
/// of it.
fn bad_signature(
    alloc: Global,
    given: &GivenSignature<'_>,
    flaw: SignatureFlaw,
) -> Result<Fault, AllocError> {
    let path = Shown::of(alloc, given.paths.signature.as_str())?;
    let id = Shown::of(alloc, given.made.id)?;
    let fault = match other_signer(alloc, &given.made, given.keys)? {
        Some(signer) => SignatureFault::OtherSigner {
            path,
            id,
            signer: Shown::of(alloc, signer)?,
        },
        None => SignatureFault::Flawed { path, id, flaw },
    };
    Ok(Fault::BadSignature(fault))
}
