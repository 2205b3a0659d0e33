//! The words of the command line.
ghost use Rattle.std.specs.Prelude.{◌≡◌, [], IfOk, IfErr, map, string_bytes};
ghost use Rattle.clap.specs.Words.{fault_of, subcommand_of, subcommand_rows_of};
ghost use Rattle.it_words.specs.Commands.{program};
ghost use Rattle.it_words.specs.Words.{AreWordsOf, GoesNoDeeper};
ghost use Rattle.it_words.specs.declared.words.WordsFault.TheVariants.{OutOfMemory};

mod arguments;
pub mod check_words;
mod dashes;
pub mod digest_words;
pub mod form;
pub mod key_words;
pub mod link_words;
pub mod match_words;
mod named;
mod note;
pub mod pae_words;
pub mod payload_words;
mod program;
pub mod sign_words;
pub mod signed_words;
pub mod statement_words;
mod table;
mod usage;
mod usages;
mod values;
pub mod verify_words;

pub use self::{
    check_words as checking, digest_words as digesting, key_words as keys, link_words as linking,
    match_words as matching, pae_words as encoding, payload_words as unwrapping,
    sign_words as signing, signed_words as signed, statement_words as stating,
    verify_words as verifying,
};
use check_words::CheckWords;
use clap::ArgMatches;
use digest_words::DigestWords;
use key_words::KeyWords;
use link_words::LinkWords;
use match_words::MatchWords;
use pae_words::PaeWords;
use payload_words::PayloadWords;
use sign_words::SignWords;
use signed_words::SignedWords;
use statement_words::StatementWords;
use std::alloc::{AllocError, Global};
use thiserror::Error;
use values::ValuesFault;
use verify_words::VerifyWords;

/// A command with its values.
#[derive(Drop)]
pub enum Words {
    /// `itv signed ENVELOPE (--ring F | --keys F) [--trusted-root F]`: who signed an envelope, or
    /// the one of a bundle.
    Signed(SignedWords),
    /// `itv match PATTERN PATH`: whether a pattern matches a path.
    Match(MatchWords),
    /// `itv pae BODY --type TYPE`: the pre-authentication encoding of a body.
    Pae(PaeWords),
    /// `itv sign BODY (--ring F | --signature SIG --keys F) --key ID --type TYPE [--onto
    /// ENVELOPE]`: the envelope of a body, signed, or an envelope with one more signature.
    Sign(SignWords),
    /// `itv digest [--recursive] [--sha512] PATH..`: the SHA-256 of each file, or its SHA-512.
    Digest(DigestWords),
    /// `itv link --name NAME [--materials SUMS] [--products SUMS]`: the body of a step's link.
    Link(LinkWords),
    /// `itv statement --sums SUMS --builder ID --build-type TYPE [--parameters F]`: the body of a
    /// Statement with the provenance of files.
    Statement(StatementWords),
    /// `itv payload ENVELOPE`: the payload of an envelope.
    Payload(PayloadWords),
    /// `itv key (FILE.. | --identity I --issuer S) [--name ID]`: public keys, or an identity, as an
    /// object from id to key object.
    Key(KeyWords),
    /// `itv check [--policy F] [--layout F]`: what is found in a policy and in a layout, of which
    /// one is given at least.
    Check(CheckWords),
    /// `itv verify --policy F --layout F --links DIR --at MOMENT [--sums F] [--sums512 F]
    /// [--ring F..] [--public-keys] [--trusted-root F] [--json[=2]] [--strict] [--summary
    /// --verifier ID --resource URI] [--provenance F] [--records DIR] [--depth N]
    /// [--most-checks N]`: whether delivered files were made as the owners prescribed.
    Verify(VerifyWords),
}

/// Why the words are no command.
#[derive(Debug, Drop, Error)]
pub enum WordsFault {
    /// The words do not parse. The text says on its first line why, and then how the words of the
    /// command are; where none is named, those of every command, with the program's version.
    #[error("{0}")]
    Unread(String),
    /// Memory was refused.
    #[error("out of memory")]
    OutOfMemory,
}

impl From<AllocError> for WordsFault {
    ghost from_gives = { λ _ fault. fault ≡ OutOfMemory };

    fn from(_error: AllocError) -> WordsFault {
        WordsFault::OutOfMemory
    }
}

/// The command that the words name, with its values. The first word is the program's name.
///
/// No command asks for help: `--help`, `-h`, `help` and `--version` do not parse, and the fault's
/// text shows what does. The depth of a verification is at most 8; it has at least one digest list,
/// and at most 8 rings, at least one of them where public keys are not checked and there is no
/// trusted root.
///
/// # Errors
///
/// `Unread` where the words are no command, and `OutOfMemory` where memory was refused.
pub fn read_words(alloc: Global, words: &[String]) -> Result<Words, WordsFault>
    ensures ok { IfOk result (AreWordsOf (map string_bytes words.now)) }
    ensures depth { IfOk result GoesNoDeeper }
    ensures err { IfErr result (λ fault. (command : _)
        → AreWordsOf (map string_bytes words.now) command → fault ≡ WordsFault.OutOfMemory) }
{
    let matches = parsed(alloc, words)?;
    match named::named(alloc, &matches) {
        Ok(command) => Ok(command),
        Err(ValuesFault::Unfit) => Err(note::unfit(alloc, words, &matches)),
        Err(ValuesFault::OutOfMemory) => Err(WordsFault::OutOfMemory),
    }
}

fn parsed<'w>(alloc: Global, words: &'w [String]) -> Result<ArgMatches<'w>, WordsFault>
    ensures parse { IfOk result (λ _. fault_of program (map string_bytes words.entry.now) ≡ []) }
    ensures rows { IfOk result (λ matches. subcommand_rows_of matches
        ≡ subcommand_of program (map string_bytes words.entry.now)) }
    ensures err { IfErr result (λ fault. fault_of program (map string_bytes words.entry.now) ≡ []
        → fault ≡ WordsFault.OutOfMemory) }
{
    match program::command(alloc)?.try_get_matches_from(words) {
        Ok(matches) => Ok(matches),
        Err(error) => Err(note::fault_of(alloc, words, &error)),
    }
}
