//! The commands with their arguments.
ghost use Rattle.std.specs.Prelude.{◌≡◌, map};
ghost use Rattle.it_words.specs.Commands.{commands};
ghost use Rattle.it_words.specs.inside.Rows.{app_of_row};

/// An argument of a command, by its kind: its name, and how its value is shown where it has one.
pub(crate) enum Argument {
    /// A word that has to be given, in its place.
    NeededWord(&'static str, &'static str),
    /// Words of which at least one has to be given, in their place.
    NeededWords(&'static str, &'static str),
    /// Words that may be left out, in their place.
    FreeWords(&'static str, &'static str),
    /// An option that has to be given, with one value.
    NeededOption(&'static str, &'static str),
    /// An option that may be left out, with one value.
    PlainOption(&'static str, &'static str),
    /// An option that may be left out or given many times, with one value each time.
    PlainOptions(&'static str, &'static str),
    /// An option without a value, which may be left out or given many times.
    BareOption(&'static str),
    /// The form of a report as JSON, which may be left out or given many times: 1 or 2, and 1 where
    /// the option has no value.
    JsonForm,
    /// How deep sublayouts may lie: from 0 to 8, and 4 where it is not said.
    Depth,
    /// How many signatures public keys may check: 20,000 where it is not said.
    MostChecks,
}

/// A command: its name, and its arguments in the order in which they are shown.
pub(crate) struct CommandRow {
    /// The name of the command.
    pub(super) name: &'static str,
    /// The arguments.
    pub(super) arguments: &'static [Argument],
}

/// The commands. Takes no memory.
pub(super) fn rows() -> &'static [CommandRow]
    ensures { map app_of_row result.now ≡ commands }
{
    &[
        SIGNED, MATCH, PAE, PAYLOAD, KEY, SIGN, DIGEST, LINK, STATEMENT, CHECK, VERIFY,
    ]
}

/// `itv signed`.
const SIGNED: CommandRow = CommandRow {
    name: "signed",
    arguments: &[
        Argument::NeededWord("envelope", "ENVELOPE"),
        Argument::PlainOption("ring", "F"),
        Argument::PlainOption("keys", "F"),
        Argument::PlainOption("trusted-root", "F"),
    ],
};

/// `itv match`.
const MATCH: CommandRow = CommandRow {
    name: "match",
    arguments: &[
        Argument::NeededWord("pattern", "PATTERN"),
        Argument::NeededWord("path", "PATH"),
    ],
};

/// `itv pae`.
const PAE: CommandRow = CommandRow {
    name: "pae",
    arguments: &[
        Argument::NeededWord("body", "BODY"),
        Argument::NeededOption("type", "TYPE"),
    ],
};

/// `itv payload`.
const PAYLOAD: CommandRow = CommandRow {
    name: "payload",
    arguments: &[Argument::NeededWord("envelope", "ENVELOPE")],
};

/// `itv key`.
const KEY: CommandRow = CommandRow {
    name: "key",
    arguments: &[
        Argument::FreeWords("file", "FILE"),
        Argument::PlainOption("identity", "I"),
        Argument::PlainOption("issuer", "S"),
        Argument::PlainOption("name", "ID"),
    ],
};

/// `itv sign`.
const SIGN: CommandRow = CommandRow {
    name: "sign",
    arguments: &[
        Argument::NeededWord("body", "BODY"),
        Argument::PlainOption("ring", "F"),
        Argument::PlainOption("signature", "SIG"),
        Argument::PlainOption("keys", "F"),
        Argument::NeededOption("key", "ID"),
        Argument::NeededOption("type", "TYPE"),
        Argument::PlainOption("onto", "ENVELOPE"),
    ],
};

/// `itv digest`.
const DIGEST: CommandRow = CommandRow {
    name: "digest",
    arguments: &[
        Argument::NeededWords("path", "PATH"),
        Argument::BareOption("recursive"),
        Argument::BareOption("sha512"),
    ],
};

/// `itv link`.
const LINK: CommandRow = CommandRow {
    name: "link",
    arguments: &[
        Argument::NeededOption("name", "NAME"),
        Argument::PlainOption("materials", "SUMS"),
        Argument::PlainOption("products", "SUMS"),
    ],
};

/// `itv statement`.
const STATEMENT: CommandRow = CommandRow {
    name: "statement",
    arguments: &[
        Argument::NeededOption("sums", "SUMS"),
        Argument::NeededOption("builder", "ID"),
        Argument::NeededOption("build-type", "TYPE"),
        Argument::PlainOption("parameters", "F"),
    ],
};

/// `itv check`.
const CHECK: CommandRow = CommandRow {
    name: "check",
    arguments: &[
        Argument::PlainOption("policy", "F"),
        Argument::PlainOption("layout", "F"),
    ],
};

/// `itv verify`.
const VERIFY: CommandRow = CommandRow {
    name: "verify",
    arguments: &[
        Argument::NeededOption("policy", "F"),
        Argument::NeededOption("layout", "F"),
        Argument::NeededOption("links", "DIR"),
        Argument::NeededOption("at", "MOMENT"),
        Argument::PlainOption("sums", "F"),
        Argument::PlainOption("sums512", "F"),
        Argument::PlainOptions("ring", "F"),
        Argument::BareOption("public-keys"),
        Argument::PlainOption("trusted-root", "F"),
        Argument::JsonForm,
        Argument::BareOption("strict"),
        Argument::BareOption("summary"),
        Argument::PlainOption("verifier", "ID"),
        Argument::PlainOption("resource", "URI"),
        Argument::PlainOption("provenance", "F"),
        Argument::PlainOption("records", "DIR"),
        Argument::Depth,
        Argument::MostChecks,
    ],
};
