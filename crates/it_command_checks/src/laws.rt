//! Laws about the checks of a command: functions that do nothing, and whose contracts say what was
//! proved.
ghost use Rattle.it_command_checks.specs.Laws.{LinesKnowNoOwnKeys, OwnChecksKnowNoIdentities};

/// No ring and no public key knows an object of the scheme of identities.
pub fn own_checks_know_no_identities()
    ensures { OwnChecksKnowNoIdentities }
{}

/// Lines know no object that a ring or a public key knows.
pub fn lines_know_no_own_keys()
    ensures { LinesKnowNoOwnKeys }
{}
