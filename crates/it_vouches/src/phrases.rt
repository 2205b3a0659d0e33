//! The words for what a bundle misses.
ghost use Rattle.std.specs.Prelude.{◌≡◌};
ghost use Rattle.it_vouches.specs.Phrases.{body_phrase_of, certificate_phrase_of};
ghost use Rattle.it_vouches.specs.Phrases.{checkpoint_phrase_of, entry_phrase_of};
ghost use Rattle.it_vouches.specs.Phrases.{issue_phrase_of, issuer_phrase_of, log_phrase_of};

use crate::issuer_shortfall::IssuerShortfall;
use it_bundle::NoCertificate;
use it_issued::{IssueShortfall, LogShortfall};
use it_log_entry::{BodyShortfall, EntryShortfall, NoteShortfall};

/// Why a bundle has no certificate.
pub(crate) fn certificate_phrase(reason: NoCertificate) -> &'static str
    ensures { result.now ≡ certificate_phrase_of reason }
{
    match reason {
        NoCertificate::PublicKey => "it is signed by a public key, not by a certificate",
        NoCertificate::Missing => "it has no certificate",
        NoCertificate::TwoForms => "it has both a certificate and a chain",
        NoCertificate::Chain => "bundles of version 0.3 have one certificate, not a chain",
        NoCertificate::Unreadable => "its certificate is empty, or not in base64",
    }
}

/// Why no log vouches by its entry.
pub(crate) fn entry_phrase(missed: EntryShortfall) -> &'static str
    ensures { result.now ≡ entry_phrase_of missed }
{
    match missed {
        EntryShortfall::Log => "its entry is of no log of the trusted root that is used",
        EntryShortfall::Time => "its entry is from a time at which its log was not trusted",
        EntryShortfall::Kind => { "its entry is of another kind than dsse 0.0.1 and intoto 0.0.2" }
        EntryShortfall::Body(part) => body_phrase(part),
        EntryShortfall::NoProof => "its entry has no inclusion proof",
        EntryShortfall::Inclusion => "its inclusion proof does not lead to its root",
        EntryShortfall::Checkpoint(missed) => checkpoint_phrase(missed),
        EntryShortfall::Promise => "the log did not sign its entry's time",
    }
}

fn body_phrase(part: BodyShortfall) -> &'static str
    ensures { result.now ≡ body_phrase_of part }
{
    match part {
        BodyShortfall::Form => "its entry's body does not read",
        BodyShortfall::Payload => "its entry is not about its payload",
        BodyShortfall::PayloadType => "its entry is not about its payload type",
        BodyShortfall::Signature => "its entry is not about its signature",
        BodyShortfall::Certificate => "its entry is not about its certificate",
    }
}

fn checkpoint_phrase(missed: NoteShortfall) -> &'static str
    ensures { result.now ≡ checkpoint_phrase_of missed }
{
    match missed {
        NoteShortfall::Form => "the checkpoint of its inclusion proof does not read",
        NoteShortfall::Root => {
            "the checkpoint of its inclusion proof is not of its root and size"
        }
        NoteShortfall::Signature => { "the log did not sign the checkpoint of its inclusion proof" }
    }
}

/// Why its certificate is not attested.
pub(crate) fn issuer_phrase(missed: IssuerShortfall) -> &'static str
    ensures { result.now ≡ issuer_phrase_of missed }
{
    match missed {
        IssuerShortfall::Issue(missed) => issue_phrase(missed),
        IssuerShortfall::Log(missed) => log_phrase(missed),
    }
}

fn issue_phrase(missed: IssueShortfall) -> &'static str
    ensures { result.now ≡ issue_phrase_of missed }
{
    match missed {
        IssueShortfall::Name => {
            "no authority that is used has the name of the certificate's issuer"
        }
        IssueShortfall::Window =>
            "the certificate's issuer was not trusted at the time of its entry",
        IssueShortfall::LeafTime => "the certificate was not valid at the time of its entry",
        IssueShortfall::AuthorityTime => {
            "a certificate of the certificate's issuer was not valid at the time of its entry"
        }
        IssueShortfall::Signature =>
            "the certificate is not signed by its issuer with the digest for the issuer's key",
    }
}

fn log_phrase(missed: LogShortfall) -> &'static str
    ensures { result.now ≡ log_phrase_of missed }
{
    match missed {
        LogShortfall::Missing => "the certificate has no timestamp of a certificate log",
        LogShortfall::Form => "its timestamps do not read",
        LogShortfall::Log => "none of its timestamps is of a log of the trusted root that is used",
        LogShortfall::Window => "its timestamp is from a time at which its log was not trusted",
        LogShortfall::Signature => "its log did not sign the certificate's timestamp",
    }
}
