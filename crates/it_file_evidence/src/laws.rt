//! Laws about what stands for delivered files: functions that do nothing, and whose contracts say
//! what was proved.
ghost use Rattle.it_file_evidence.specs.Laws.{SignerHasSigned};

/// Where lines name who signed an envelope for the builders of an id, one of these signed it by the
/// check of what the lines vouch for.
pub fn signer_has_signed()
    ensures { SignerHasSigned }
{}
