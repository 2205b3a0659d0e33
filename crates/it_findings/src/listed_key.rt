//! A key that a policy lists.
ghost use Rattle.std.specs.Prelude.{◌≡◌, ◌++◌, IfOk, codes, string_bytes};
ghost use Rattle.std.specs.List.{repeat};
ghost use Rattle.it_findings.specs.inside.FirstPlaces.{identity_name as identity_form, name_of};

use it_base::text::Text;
use std::alloc::{AllocError, Global};

/// A key: who signs, or what the signatures are checked with.
#[derive(Drop)]
pub enum ListedKey {
    /// The identity of these two texts.
    Identity {
        /// Who signs.
        identity: Text,
        /// Who says so.
        issuer: Text,
    },
    /// The public key that has this public part.
    Public(Text),
}

impl ListedKey {
    /// A text that is that of no other key.
    ///
    /// # Errors
    ///
    /// `AllocError` where memory was refused.
    pub(crate) fn name(&self, alloc: Global) -> Result<String, AllocError>
        ensures { IfOk result (λ name. string_bytes name ≡ name_of self.now) }
    {
        match self {
            ListedKey::Identity { identity, issuer } => {
                identity_name(alloc, identity.as_str(), issuer.as_str())
            }
            ListedKey::Public(public) => public_name(alloc, public.as_str()),
        }
    }
}

/// As many full stops as the identity has bytes, so that it is known where its issuer begins.
fn identity_name(alloc: Global, identity: &str, issuer: &str) -> Result<String, AllocError>
    ensures { IfOk result (λ name. string_bytes name ≡ identity_form identity.now issuer.now) }
{
    let mut name = ".".repeat(alloc, identity.len())?;
    name.push_str(":")?;
    name.push_str(identity)?;
    name.push_str(issuer)?;
    Ok(name)
}

fn public_name(alloc: Global, public: &str) -> Result<String, AllocError>
    ensures { IfOk result (λ name. string_bytes name ≡ codes "=" ++ public.now) }
{
    let mut name = String::from_str(alloc, "=")?;
    name.push_str(public)?;
    Ok(name)
}
