//! Why the program stops, as its notes say it.
ghost use Rattle.std.specs.Prelude.{◌≡◌, [], IfOk, unwrap_or};
ghost use Rattle.it_outcome.specs.declared.outcome.RunFault.TheVariants.{OutOfMemory};
ghost use Rattle.it_disk.specs.Faults.{IsBadLine, IsUnreadFor, IsWords, fault_of_words};
ghost use Rattle.it_disk.specs.declared.fault.Fault.TheVariants.{Run};

use crate::ring_flaw::RingFlaw;
use crate::root_flaw::RootFlaw;
use crate::shown::Shown;
use crate::signature_fault::SignatureFault;
use it_base::text::Text;
use it_key_commands::{FileFault, KeyFault};
use it_outcome::RunFault;
use it_words::words::WordsFault;
use std::alloc::{AllocError, AllocFailed, Global};
use thiserror::Error;

/// Why the program stops.
#[derive(Debug, Drop, Error)]
pub enum Fault {
    /// The words do not parse, for this reason.
    #[error("{0}")]
    Words(String),
    /// The name under which the program runs is not UTF-8.
    #[error("the program's name is not UTF-8")]
    BadProgramName,
    /// The word at this place, counted from 1 after the program's name, is not UTF-8.
    #[error("word {0} after the program's name is not UTF-8")]
    BadWord(usize),
    /// A file cannot be read, for this reason.
    #[error("cannot read {path}: {reason}")]
    Unreadable { path: Shown, reason: String },
    /// A file has more bytes than this.
    #[error("{path} is larger than {limit} bytes")]
    TooLarge { path: Shown, limit: u64 },
    /// A file's name has a line feed.
    #[error("{path} has a line feed in its name, which a digest list cannot hold")]
    Unlistable { path: Shown },
    /// A folder has a name in it that is not UTF-8.
    #[error("cannot read {path}: a name in it is not UTF-8")]
    BadName { path: Shown },
    /// A folder has more entries to read than this.
    #[error("{path} has more than {limit} entries to read")]
    TooMany { path: Shown, limit: usize },
    /// With what is at this path, links have more files and folders in all than this.
    #[error("with {path} the links have more than {limit} files and folders in all")]
    TooManyInAll { path: Shown, limit: u64 },
    /// With this file, links have more bytes in all than this.
    #[error("with {path} the links have more than {limit} bytes in all")]
    TooMuch { path: Shown, limit: u64 },
    /// A folder below one that is listed lies deeper than this.
    #[error("{path} lies more than {limit} folders deep")]
    TooDeep { path: Shown, limit: u8 },
    /// A file below a folder comes after as many as this limit.
    #[error("{path} is one more than the {limit} files that a folder may have below it")]
    TooManyFiles { path: Shown, limit: usize },
    /// A file is no ring, for this reason.
    #[error("{path} is no ring of secrets: {flaw}")]
    BadRing { path: Shown, flaw: RingFlaw },
    /// A file is no trusted root, for this reason.
    #[error("the trusted root {path} does not read: {flaw}")]
    BadRoot { path: Shown, flaw: RootFlaw },
    /// A ring has no entry with this id.
    #[error("{path} has no key {id}")]
    UnknownKey { path: Shown, id: Shown },
    /// A file does not hold key objects under their ids.
    #[error("{path} is no object from id to key object, like a layout's keys or a policy's owners")]
    BadKeys { path: Shown },
    /// The key object under this id describes no public key.
    #[error("{path} has no public key under {id} that signatures are checked by")]
    NoPublicKey { path: Shown, id: Shown },
    /// A file is not a public key, for this reason.
    #[error("{path} is not a public key that is taken: it is {flaw}")]
    BadKey { path: Shown, flaw: FileFault },
    /// A signature that was made elsewhere is not one of the body by the key under its id.
    #[error("{0}")]
    BadSignature(SignatureFault),
    /// A line of a digest list, counted from 1, is malformed or repeats a path.
    #[error("{path}: line {line} is no line of a digest list, or repeats a path")]
    BadLine { path: Shown, line: u64 },
    /// A digest list has no line, and each one is a subject of a Statement.
    #[error("{path} lists no file, and a Statement is about at least one")]
    NoSubjects { path: Shown },
    /// The external parameters are no JSON object, or one that nests too deep.
    #[error("{path} is no JSON object that nests at most 124 levels deep")]
    BadParameters { path: Shown },
    /// What a signature is to be added to is no envelope.
    #[error("{path} is no DSSE envelope")]
    NoEnvelope { path: Shown },
    /// An envelope that a signature is to be added to has a payload other than the body.
    #[error("{path} has another payload than {body}")]
    OtherPayload { path: Shown, body: Shown },
    /// An envelope that a signature is to be added to has another payload type.
    #[error("{path} has another payload type than {kind}")]
    OtherType { path: Shown, kind: Shown },
    /// More signatures would have to be checked with a trusted root than this.
    #[error("more than {limit} signatures would have to be checked with the trusted root")]
    TooManyChecks { limit: u64 },
    /// The output cannot be written, for this reason.
    #[error("cannot write the output: {reason}")]
    Unwritable { reason: String },
    /// The command stopped, or memory was refused.
    #[error("{0}")]
    Run(RunFault),
}

impl From<AllocError> for Fault {
    ghost from_gives = { λ _ fault. fault ≡ Run OutOfMemory };

    fn from(_error: AllocError) -> Fault {
        Fault::Run(RunFault::OutOfMemory)
    }
}

impl<T: Drop> From<AllocFailed<T>> for Fault {
    ghost from_gives = { λ _ fault. fault ≡ Run OutOfMemory };

    fn from(_error: AllocFailed<T>) -> Fault {
        Fault::Run(RunFault::OutOfMemory)
    }
}

impl From<RunFault> for Fault {
    ghost from_gives = { λ reason fault. fault ≡ Run reason };

    fn from(fault: RunFault) -> Fault {
        Fault::Run(fault)
    }
}

impl From<WordsFault> for Fault {
    ghost from_gives = { λ words fault. fault ≡ fault_of_words words };

    fn from(fault: WordsFault) -> Fault {
        match fault {
            WordsFault::Unread(reason) => Fault::Words(reason),
            WordsFault::OutOfMemory => Fault::Run(RunFault::OutOfMemory),
        }
    }
}

impl Fault {
    /// The fault of a file that cannot be read, for a reason in the program's own words.
    ///
    /// # Errors
    ///
    /// `AllocError` where memory was refused.
    pub fn unread(alloc: Global, path: &str, reason: &str) -> Result<Fault, AllocError>
        ensures { IfOk result (IsUnreadFor path.now reason.now) }
    {
        Ok(Fault::Unreadable {
            path: Shown::of(alloc, path)?,
            reason: String::from_str(alloc, reason)?,
        })
    }

    /// The fault of a bad line of a digest list, from 1; a list that is not given has no path.
    ///
    /// # Errors
    ///
    /// `AllocError` where memory was refused.
    pub fn bad_line(alloc: Global, path: &Option<Text>, line: u64) -> Result<Fault, AllocError>
        ensures { IfOk result (IsBadLine (unwrap_or path.now []) line) }
    {
        let path = path.as_ref().map_or("", |path| path.as_str());
        Ok(Fault::BadLine {
            path: Shown::of(alloc, path)?,
            line,
        })
    }

    /// The fault of a command on public keys, in its own words.
    ///
    /// # Errors
    ///
    /// `AllocError` where memory was refused.
    pub fn of_key(alloc: Global, fault: KeyFault) -> Result<Fault, AllocError>
        ensures { IfOk result IsWords }
    {
        Ok(Fault::Words(format!(in alloc; "{fault}")?))
    }
}
