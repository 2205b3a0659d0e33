//! Why a delivered file has no provenance.
use it_base::text::Text;
use std::alloc::AllocError;

/// Why no provenance was found for a delivered file.
#[derive(Drop)]
pub enum ProvError {
    /// No expectation's pattern matches the file's path, which is given.
    NoExpectation(Text),
    /// No envelope meets the expectation that speaks of the file. The file's path is given, and the
    /// greatest level of a builder with which some envelope meets the expectation in all but the
    /// level, or `None` where there is no such builder.
    NoProvenance(Text, Option<u8>),
    /// Memory was refused.
    OutOfMemory,
}

impl From<AllocError> for ProvError {
    ghost use Rattle.std.specs.Prelude.{◌≡◌};
    ghost use Rattle.it_prov.specs.declared.fault.ProvError.TheVariants.{OutOfMemory};

    ghost from_gives = { λ _ e. e ≡ OutOfMemory };

    fn from(_e: AllocError) -> ProvError {
        ProvError::OutOfMemory
    }
}

/// No envelope meets an expectation.
#[derive(Clone, Copy)]
pub(crate) struct Unmet {
    /// The level that `NoProvenance` reports.
    pub best: Option<u8>,
}
