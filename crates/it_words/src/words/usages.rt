//! The usages of the commands. Made by checks/manual.py from docs/commands.json.
use super::usage::Usage;

/// The program with its version.
pub(super) const VERSION: &str = "itv 1.1.0";

/// What the program does.
pub(super) const SUMMARY: &str =
    "decides whether delivered files were made as their owners prescribed";

/// The usages, in the order in which they are shown.
pub(super) static USAGES: [Usage; 11] = [
    VERIFY, CHECK, SIGNED, SIGN, PAE, DIGEST, LINK, STATEMENT, PAYLOAD, KEY, MATCH,
];

/// The usage of `itv verify`.
pub(super) const VERIFY: Usage = Usage {
    name: "verify",
    line: "itv verify --policy F --layout F --links DIR --at MOMENT [--sums F]
    [--sums512 F] [--ring F..] [--public-keys] [--trusted-root F] [--json[=2]]
    [--strict] [--summary --verifier ID --resource URI] [--provenance F]
    [--records DIR] [--depth N] [--most-checks N]",
    text: "    Writes the report of the verification: the line accepted with each step and
    each file, or the line refused with the first thing that does not hold.
      --policy F        The policy: the owners of the layout, what may be
                        delivered, and which provenance each file must have.
      --layout F        The envelope of the layout.
      --links DIR       The folder of the signed links, and of the folders of
                        sublayouts.
      --at MOMENT       The moment at which no layout may have expired, as
                        2029-12-31T00:00:00Z.
      --sums F          The digest list of the delivered files by SHA-256, as
                        itv digest or sha256sum writes it. May be left out with
                        --sums512.
      --sums512 F       The digest list of the delivered files by SHA-512, as
                        itv digest --sha512 or sha512sum writes it; a path that
                        is in both lists has both digests. May be left out with
                        --sums.
      --ring F          A ring of secrets, at most eight of them; the first
                        ring that has an id decides what its key is. May be
                        left out with --public-keys or --trusted-root.
      --public-keys     Checks signatures by the public keys in the policy and
                        in the layouts too, after the rings.
      --trusted-root F  The trusted root of Sigstore, by which lines of the
                        provenance that are bundles are checked.
      --json[=2]        Writes the report as one JSON object; with =2 also what
                        is found and noted.
      --strict          Refuses what would be accepted, with status 2, where
                        something is found in the policy, in the layout or in a
                        sublayout, as itv check finds it, an expectation is
                        unused, a delivered file is tied to no step, one of two
                        digest lists alone names a path, or two keys signed
                        with one nonce.
      --summary         Writes the body of a SLSA verification summary in place
                        of a report that accepts, for itv sign to sign; the
                        report of a refusal goes to standard error. It implies
                        --strict and excludes --json.
      --verifier ID     With --summary, the id of who verifies, a URI.
      --resource URI    With --summary, the URI of what is verified.
      --provenance F    The provenance, one envelope a line.
      --records DIR     The folder of the records of inspections, link bodies
                        without envelopes.
      --depth N         How deep sublayouts may lie, from 0 to 8; 4 where it is
                        not given.
      --most-checks N   With --public-keys, how many signatures are checked by
                        such keys at most; 20000 where it is not given.",
};

/// The usage of `itv check`.
pub(super) const CHECK: Usage = Usage {
    name: "check",
    line: "itv check [--policy F] [--layout F]",
    text: "    Writes what is found in a policy and in a layout that may not do what their
    author meant, one finding a line; of a document that does not read, why it
    is refused.
      --policy F  The policy. It or a layout is given, or both.
      --layout F  The layout, in its envelope or as the body that is signed. No
                  signature is looked at.",
};

/// The usage of `itv signed`.
pub(super) const SIGNED: Usage = Usage {
    name: "signed",
    line: "itv signed ENVELOPE (--ring F | --keys F) [--trusted-root F]",
    text: "    Writes the ids of the ring, or of the public keys and identities, that
    signed the envelope, one a line, in byte order.
      --ring F          The ring of secrets that signatures are checked by.
      --keys F          The public keys that signatures are checked by, in
                        place of a ring: an object from id to key object, as
                        itv key writes it; with --trusted-root identities too.
      --trusted-root F  With --keys, the trusted root of Sigstore. The file may
                        then be a bundle: its envelope is looked at, and an
                        identity signed it where the bundle vouches for that
                        identity.",
};

/// The usage of `itv sign`.
pub(super) const SIGN: Usage = Usage {
    name: "sign",
    line: "itv sign BODY (--ring F | --signature SIG --keys F) --key ID --type TYPE
    [--onto ENVELOPE]",
    text: "    Writes the envelope of the body, signed under the id's secret or with the
    given signature, and a line feed.
      --ring F         The ring of secrets.
      --signature SIG  A signature that was made elsewhere of what itv pae
                       writes, in place of a ring: the file of its bytes.
      --keys F         With --signature, the public keys; it must be valid for
                       the one under the id.
      --key ID         The id of the key that signs.
      --type TYPE      The payload type; that of layouts, links and Statements
                       is application/vnd.in-toto+json.
      --onto ENVELOPE  An envelope of the same body and type, to which the
                       signature is added.",
};

/// The usage of `itv pae`.
pub(super) const PAE: Usage = Usage {
    name: "pae",
    line: "itv pae BODY --type TYPE",
    text: "    Writes what is signed for the body, its pre-authentication encoding, with
    no line feed.
      --type TYPE  The payload type.",
};

/// The usage of `itv digest`.
pub(super) const DIGEST: Usage = Usage {
    name: "digest",
    line: "itv digest PATH.. [--recursive] [--sha512]",
    text: "    Writes a digest list: for each file the SHA-256 in hexadecimal, two spaces,
    the name, a line feed. Where a file cannot be read the lines before it
    stand, and the list is not whole.
      --recursive  Takes a folder for the files below it, in byte order of
                   their paths.
      --sha512     Writes the SHA-512 of each file, in place of the SHA-256.",
};

/// The usage of `itv link`.
pub(super) const LINK: Usage = Usage {
    name: "link",
    line: "itv link --name NAME [--materials SUMS] [--products SUMS]",
    text: "    Writes the body of the step's link, which itv sign signs. A digest list
    that is not given is empty.
      --name NAME       The name of the step.
      --materials SUMS  The digest list of the files that the step took in.
      --products SUMS   The digest list of the files that the step made.",
};

/// The usage of `itv statement`.
pub(super) const STATEMENT: Usage = Usage {
    name: "statement",
    line: "itv statement --sums SUMS --builder ID --build-type TYPE [--parameters F]",
    text: "    Writes the body of a Statement with the provenance of the files, which itv
    sign signs.
      --sums SUMS        The digest list of the files that the Statement is
                         about.
      --builder ID       The id of the builder.
      --build-type TYPE  The type of the build.
      --parameters F     The external parameters, a JSON object.",
};

/// The usage of `itv payload`.
pub(super) const PAYLOAD: Usage = Usage {
    name: "payload",
    line: "itv payload ENVELOPE",
    text: "    Writes the payload of the envelope. It looks at no signature.",
};

/// The usage of `itv key`.
pub(super) const KEY: Usage = Usage {
    name: "key",
    line: "itv key (FILE.. | --identity I --issuer S) [--name ID]",
    text: "    Writes the public keys in PEM files, or an identity by which Sigstore
    bundles are checked, as one JSON object from id to key object, and a line
    feed, as layouts, policies and --keys take it.
      --identity I  In place of files, the name of an identity as the
                    certificates of its Sigstore bundles have it, a URI or an
                    address of mail, in 512 bytes at most.
      --issuer S    With --identity, the issuer of the identity as those
                    certificates have it, in 512 bytes at most.
      --name ID     The id of the key, with one file or an identity; else it is
                    made from the key as securesystemslib makes it.",
};

/// The usage of `itv match`.
pub(super) const MATCH: Usage = Usage {
    name: "match",
    line: "itv match PATTERN PATH",
    text: "    Writes whether the pattern of an artifact rule matches the whole path: yes
    or no, and a line feed.",
};
