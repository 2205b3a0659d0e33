//! `itv digest`: the line of a file in a digest list.
ghost use Rattle.std.specs.Prelude.{◌≡◌, ◌≢◌, ◌↔◌, IfErr, IfOk, IsErrOf};
ghost use Rattle.std.specs.Io.KnownBytes.{Appends};
ghost use Rattle.it_base.specs.Writing.{AppendsBeginning};
ghost use Rattle.it_digest.specs.DigestSet.{in_sha256, in_sha512};
ghost use Rattle.it_digest.specs.Reader.{GaveAtMost, GaveMoreThan};
ghost use Rattle.it_digest.specs.Sums.{algorithm_of};
ghost use Rattle.it_commands.specs.DigestOutput.{HasLineFeed, IsDigestFault, IsDigestLine};
ghost use Rattle.it_commands.specs.DigestOutput.{digest_line};

use it_digest::reader::{DigestFault, sha256_of_reader, sha512_of_reader};
use it_digest::sums::ListAlgorithm;
use it_outcome::output::{Output, put};
use it_outcome::{RunFault, Status};
use std::alloc::{AllocError, Global};
use std::io::{Read, Write};

/// Whether a name can be in a digest list as `sha256sum` and `sha512sum` write one.
///
/// # Errors
///
/// `BadName` where the name has a line feed.
pub fn check_name(name: &str) -> Result<(), RunFault>
    ensures bad { IsErrOf result RunFault.BadName ↔ HasLineFeed name.now }
    ensures only { IfErr result (λ fault. fault ≡ RunFault.BadName) }
{
    if name.as_bytes().contains(&b'\n') {
        Err(RunFault::BadName)
    } else {
        Ok(())
    }
}

/// Writes the line of a file in a digest list: the SHA-256 of all that the reader gives, in 64
/// lower-case hexadecimal digits, two spaces, the name as it is given, and a line feed. `limit` is
/// the most bytes that the reader may give. The answer is `Good`.
///
/// # Errors
///
/// `BadName` where the name has a line feed; nothing was read. `Digest` where the reader returned
/// an error or gave more than `limit` bytes. `OutOfMemory` where memory was refused. Nothing went
/// out in these cases. `Write` where the output could not be written; a beginning of it went out.
pub fn run_digest<R: Read, W: Write>(
    alloc: Global,
    name: &str,
    input: &mut R,
    limit: u64,
    out: &mut W,
) -> Result<Status, RunFault>
    ensures ok { IfOk result (λ status. (status ≡ Status.Good) × (text : _)
        × IsDigestLine in_sha256 (R.remaining input.old) (R.remaining input.new) limit name.now text
        × Appends (W.contents out.old) (W.contents out.new) text) }
    ensures write { IsErrOf result RunFault.Write → (text : _)
        × IsDigestLine in_sha256 (R.remaining input.old) (R.remaining input.new) limit name.now text
        × AppendsBeginning (W.contents out.old) (W.contents out.new) text }
    ensures nothing { IfErr result (λ fault. fault ≢ RunFault.Write → out.new ≡ out.old) }
    ensures bad_name { IsErrOf result RunFault.BadName ↔ HasLineFeed name.now }
    ensures unread { IsErrOf result RunFault.BadName → input.new ≡ input.old }
    ensures too_large { result ≡ Err (RunFault.Digest DigestFault.TooLarge)
        → GaveMoreThan (R.remaining input.old) (R.remaining input.new) limit }
    ensures read { result ≡ Err (RunFault.Digest DigestFault.Read)
        → GaveAtMost (R.remaining input.old) (R.remaining input.new) limit }
    ensures known { IfErr result (λ fault. fault ≢ RunFault.UnknownKey) }
    ensures faults { IfErr result IsDigestFault }
{
    match line_of(alloc, ListAlgorithm::Sha256, name, input, limit) {
        Ok(text) => {
            let status = Status::Good;
            put(out, &Output { text, status })
        }
        Err(fault) => Err(fault),
    }
}

/// Writes the line of a file in a digest list by SHA-512, as [`run_digest`] writes that by SHA-256:
/// the digest has 128 digits.
///
/// # Errors
///
/// Those of [`run_digest`].
pub fn run_digest512<R: Read, W: Write>(
    alloc: Global,
    name: &str,
    input: &mut R,
    limit: u64,
    out: &mut W,
) -> Result<Status, RunFault>
    ensures ok { IfOk result (λ status. (status ≡ Status.Good) × (text : _)
        × IsDigestLine in_sha512 (R.remaining input.old) (R.remaining input.new) limit name.now text
        × Appends (W.contents out.old) (W.contents out.new) text) }
    ensures write { IsErrOf result RunFault.Write → (text : _)
        × IsDigestLine in_sha512 (R.remaining input.old) (R.remaining input.new) limit name.now text
        × AppendsBeginning (W.contents out.old) (W.contents out.new) text }
    ensures nothing { IfErr result (λ fault. fault ≢ RunFault.Write → out.new ≡ out.old) }
    ensures bad_name { IsErrOf result RunFault.BadName ↔ HasLineFeed name.now }
    ensures unread { IsErrOf result RunFault.BadName → input.new ≡ input.old }
    ensures too_large { result ≡ Err (RunFault.Digest DigestFault.TooLarge)
        → GaveMoreThan (R.remaining input.old) (R.remaining input.new) limit }
    ensures read { result ≡ Err (RunFault.Digest DigestFault.Read)
        → GaveAtMost (R.remaining input.old) (R.remaining input.new) limit }
    ensures known { IfErr result (λ fault. fault ≢ RunFault.UnknownKey) }
    ensures faults { IfErr result IsDigestFault }
{
    match line_of(alloc, ListAlgorithm::Sha512, name, input, limit) {
        Ok(text) => {
            let status = Status::Good;
            put(out, &Output { text, status })
        }
        Err(fault) => Err(fault),
    }
}

/// The line of what the reader gives.
fn line_of<R: Read>(
    alloc: Global,
    algorithm: ListAlgorithm,
    name: &str,
    input: &mut R,
    limit: u64,
) -> Result<Vec<u8>, RunFault>
    ensures ok { IfOk result (λ text. IsDigestLine (algorithm_of algorithm)
        (R.remaining input.old) (R.remaining input.new) limit name.now text.items) }
    ensures bad_name { IsErrOf result RunFault.BadName ↔ HasLineFeed name.now }
    ensures unread { IsErrOf result RunFault.BadName → input.new ≡ input.old }
    ensures too_large { result ≡ Err (RunFault.Digest DigestFault.TooLarge)
        → GaveMoreThan (R.remaining input.old) (R.remaining input.new) limit }
    ensures read { result ≡ Err (RunFault.Digest DigestFault.Read)
        → GaveAtMost (R.remaining input.old) (R.remaining input.new) limit }
    ensures faults { IfErr result (λ fault. (fault ≢ RunFault.Write) × IsDigestFault fault) }
{
    check_name(name)?;
    match algorithm {
        ListAlgorithm::Sha256 => match sha256_of_reader(input, limit) {
            Ok(digest) => Ok(line(alloc, &digest, name)?),
            Err(fault) => Err(RunFault::Digest(fault)),
        },
        ListAlgorithm::Sha512 => match sha512_of_reader(input, limit) {
            Ok(digest) => Ok(line(alloc, &digest, name)?),
            Err(fault) => Err(RunFault::Digest(fault)),
        },
    }
}

fn line<const N: usize>(alloc: Global, digest: &[u8; N], name: &str) -> Result<Vec<u8>, AllocError>
    ensures { IfOk result (λ text. text.items ≡ digest_line digest.now name.now) }
{
    let mut text = hex::encode(alloc, digest.as_slice())?;
    text.push_str("  ")?;
    text.push_str(name)?;
    text.push('\n')?;
    Ok(text.into_bytes())
}
