//! Files as bundles hold them: each read as an envelope once.
ghost use Rattle.std.specs.Prelude.{◌≡◌, IfOk, MatchOption};
ghost use Rattle.it_base.specs.Finds.{FindsAs};
ghost use Rattle.it_dsse.specs.Envelope.{EnvelopeOf};
ghost use Rattle.it_dsse.specs.declared.envelope.Envelope.{Envelope as Enveloped};
ghost use Rattle.it_chain.specs.inside.HeldFile.{IsHeld};

use crate::bundle::File;
use crate::candidate::envelope_in;
use it_base::sequence::Sequence;
use it_base::text::Text;
use it_dsse::envelope::Envelope;
use std::alloc::{AllocError, Global};
use std::marker::Model;
use std::snapshot::Snapshot;

/// A file of a bundle, of which the envelope is held that its bytes are, and the bytes themselves
/// only where they are none. A contract sees the file: its name and all of its bytes.
#[derive(Drop)]
pub struct HeldFile {
    name: Text,
    held: Held,
    // What contracts see. It takes no memory.
    bytes: Snapshot<Sequence<u8>>,
}

/// What is held of a file's bytes.
#[derive(Drop)]
enum Held {
    /// The envelope that they are.
    Read(Envelope),
    /// The bytes, which are no envelope.
    Unread(Sequence<u8>),
}

impl Model for HeldFile {
    ghost use Rattle.it_chain.specs.declared.bundle.File.{File};

    ghost Value = { File };

    ghost use Rattle.it_chain.specs.inside.HeldFile.{IsHeld};

    ghost view = { λ f. record { name = f.name; bytes = f.bytes.value } };

    ghost invariant = { λ f. IsHeld f.bytes.value f.held };
}

impl HeldFile {
    /// Reads the bytes of a file as an envelope, and holds what they are.
    ///
    /// # Errors
    ///
    /// `AllocError` where memory was refused.
    pub fn read(alloc: Global, file: File) -> Result<HeldFile, AllocError>
        ensures { IfOk result (λ held. held ≡ file) }
    {
        let File { name, bytes } = file;
        let seen = Snapshot::of(&bytes);
        let held = Held::of(alloc, bytes)?;
        Ok(HeldFile {
            name,
            held,
            bytes: seen,
        })
    }

    /// The name, without a folder prefix. Takes no memory.
    pub fn name(&self) -> &str
        ensures { result.now ≡ self.now.name }
    {
        self.name.as_str()
    }

    /// The envelope that the file's bytes are (DSSE v1.0, "Envelope"), or `None` where they are not
    /// one. Takes no memory.
    pub fn envelope(&self) -> Option<&Envelope>
        ensures { FindsAs (λ envelope. envelope.now) (EnvelopeOf self.now.bytes) result }
    {
        match &self.held {
            Held::Read(envelope) => Some(envelope),
            Held::Unread(_) => None,
        }
    }

    /// The file's bytes where they are not an envelope, and `None` where they are one. Takes no
    /// memory.
    pub fn unread(&self) -> Option<&[u8]>
        ensures { MatchOption result ((envelope : Enveloped) × EnvelopeOf self.now.bytes envelope)
            (λ bytes. bytes.now ≡ self.now.bytes) }
    {
        match &self.held {
            Held::Read(_) => None,
            Held::Unread(bytes) => Some(bytes.as_slice()),
        }
    }
}

impl Held {
    /// What is held of bytes.
    fn of(alloc: Global, bytes: Sequence<u8>) -> Result<Held, AllocError>
        ensures { IfOk result (IsHeld bytes) }
    {
        match envelope_in(alloc, bytes.as_slice())? {
            Some(envelope) => Ok(Held::Read(envelope)),
            None => Ok(Held::Unread(bytes)),
        }
    }
}
