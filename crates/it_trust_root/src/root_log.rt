//! The logs of a trusted root.
ghost use Rattle.it_base.specs.Finds.{Finds};
ghost use Rattle.it_trust_root.specs.Log.{IsRootLog, LogOf};

use crate::listed_log::ListedLog;
use it_base::text::Text;
use it_borrowed::parts::FromBorrowed;
use it_log::{Log, LogKey};
use json::Value;
use std::alloc::{AllocError, Global};

/// Why a log is passed over: the first of these that is true.
#[derive(Drop)]
pub enum Unusable {
    /// It hashes by another algorithm than SHA-256, which is named.
    HashAlgorithm(Text),
    /// Its key is of another kind than P-256 with SHA-256, which is named.
    KeyDetails(Text),
    /// Its id has this many bytes, and not 32.
    IdLength(usize),
}

/// A log of a trusted root.
#[derive(Drop)]
pub enum RootLog {
    /// One that is used.
    Usable(Log),
    /// One that is not, and why.
    PassedOver(Unusable),
}

impl FromBorrowed for RootLog {
    ghost is_of = { IsRootLog };

    /// The log, where the part is one; a usable one must have a key of P-256.
    fn from_borrowed(alloc: Global, value: &Value<'_>) -> Result<Option<RootLog>, AllocError> {
        let Some(listed) = ListedLog::from_borrowed(alloc, value)? else {
            return Ok(None);
        };
        Ok(log_of(listed))
    }
}

fn log_of(listed: ListedLog) -> Option<RootLog>
    ensures { Finds (LogOf listed) result }
{
    let ListedLog {
        hash_algorithm,
        key,
        id,
    } = listed;
    if hash_algorithm.as_str() != "SHA2_256" {
        return Some(RootLog::PassedOver(Unusable::HashAlgorithm(hash_algorithm)));
    }
    if key.details.as_str() != "PKIX_ECDSA_P256_SHA_256" {
        return Some(RootLog::PassedOver(Unusable::KeyDetails(key.details)));
    }
    let id = id.as_slice();
    if id.len() != 32 {
        return Some(RootLog::PassedOver(Unusable::IdLength(id.len())));
    }
    let id = *id.first_chunk::<32>()?;
    let window = key.window;
    let key = LogKey::from_info(key.bytes.as_slice())?;
    Some(RootLog::Usable(Log { id, key, window }))
}
