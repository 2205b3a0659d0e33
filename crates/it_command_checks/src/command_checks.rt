//! The checks of a command: its own, and what lines vouch for.
ghost use Rattle.std.specs.Prelude.{◌≡◌, length};
ghost use Rattle.it_dsse.specs.Panel.{panel_of};
ghost use Rattle.it_public_keys.specs.OwnChecks.{own_checks};

use it_dsse::checks::Checks;
use it_dsse::envelope::Signature;
use it_dsse::key_name::KeyName;
use it_dsse::key_object::KeyObject;
use it_dsse::meter::Meter;
use it_public_keys::own_checks::{OwnChecks, OwnKey};
use it_vouched::{IdentityKey, VouchedLines};
use std::alloc::AllocError;

/// The checks of a command: by its rings and public keys, and after them by what lines of
/// provenance vouch for, where there are such lines.
#[derive(Drop)]
pub struct CommandChecks {
    /// The checks by rings and, where they are asked for, by public keys.
    pub own: OwnChecks,
    /// What the lines vouch for, where a trusted root was given.
    pub vouched: Option<VouchedLines>,
}

impl CommandChecks {
    /// The checks by rings and public keys and, where they are given, by what lines vouch for.
    pub fn new(own: OwnChecks, vouched: Option<VouchedLines>) -> CommandChecks
        ensures own { result.own ≡ own }
        ensures vouched { result.vouched ≡ vouched }
    {
        CommandChecks { own, vouched }
    }

    /// Whether public keys would have had to check more signatures than they may.
    pub fn is_spent(&self) -> bool {
        self.own.is_spent()
    }

    /// The place of the check by what lines vouch for.
    fn place(&self) -> usize
        ensures { result ≡ length (own_checks self.now.own.rings.items self.now.own.public_keys) }
    {
        self.own.rings.len() + usize::from(self.own.public_keys)
    }
}

/// A key that was found.
#[derive(Drop)]
pub enum CommandKey {
    /// That of a ring, or a public key.
    Own(OwnKey),
    /// That of an identity.
    Identity(IdentityKey),
}

impl Checks for CommandChecks {
    type Found = CommandKey;

    ghost use Rattle.it_command_checks.specs.CommandChecks.{command_checks};
    ghost use Rattle.it_command_checks.specs.CommandKeys.{found_number, Stands};

    ghost panel = { λ s. panel_of
        (command_checks s.own.rings.items s.own.public_keys s.vouched) };

    ghost number = { found_number };

    ghost stands = { Stands };

    fn find(&self, id: &str, object: &KeyObject) -> Option<CommandKey> {
        if let Some(key) = self.own.find(id, object) {
            return Some(CommandKey::Own(key));
        }
        if self.vouched.is_none() {
            return None;
        }
        match IdentityKey::in_object(object) {
            Some(key) => Some(CommandKey::Identity(key)),
            None => None,
        }
    }

    fn any_valid(
        &self,
        key: &CommandKey,
        message: &[&[u8]],
        signatures: &[Signature],
        id: &str,
        meter: &mut Meter,
    ) -> Result<bool, AllocError> {
        match key {
            CommandKey::Own(key) => self.own.any_valid(key, message, signatures, id, meter),
            CommandKey::Identity(key) => {
                let Some(lines) = &self.vouched else {
                    unreachable!();
                };
                Ok(lines.any_valid(key, message, signatures, id, meter))
            }
        }
    }

    fn name(&self, key: &CommandKey) -> KeyName {
        match key {
            CommandKey::Own(key) => self.own.name(key),
            CommandKey::Identity(key) => key.name(self.place()),
        }
    }
}
