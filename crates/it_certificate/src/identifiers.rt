//! The identifiers of the extensions that are read.
ghost use Rattle.std.specs.Prelude.{◌≡◌};
ghost use Rattle.it_certificate.specs.Identifiers.{is_known};

/// 2.5.29.15.
pub(crate) const KEY_USAGE: [u8; 3] = [85, 29, 15];

/// 2.5.29.17: the subject's other name.
pub(crate) const SUBJECT_NAME: [u8; 3] = [85, 29, 17];

/// 2.5.29.19.
pub(crate) const BASIC_CONSTRAINTS: [u8; 3] = [85, 29, 19];

/// 2.5.29.30.
pub(crate) const NAME_CONSTRAINTS: [u8; 3] = [85, 29, 30];

/// 2.5.29.37.
pub(crate) const EXTENDED_KEY_USAGE: [u8; 3] = [85, 29, 37];

/// 1.3.6.1.4.1.57264.1.1: the issuer of an identity, in its old form.
pub(crate) const OLD_ISSUER: [u8; 10] = [43, 6, 1, 4, 1, 131, 191, 48, 1, 1];

/// 1.3.6.1.4.1.57264.1.8: the same in its new form.
pub(crate) const NEW_ISSUER: [u8; 10] = [43, 6, 1, 4, 1, 131, 191, 48, 1, 8];

/// 1.3.6.1.4.1.11129.2.4.2: the timestamps of certificate logs (RFC 6962, section 3.3).
pub const TIMESTAMPS: [u8; 10] = [43, 6, 1, 4, 1, 214, 121, 2, 4, 2];

/// Whether a critical extension of this identifier is known.
pub(crate) fn is_known(id: &[u8]) -> bool
    ensures { result ≡ is_known id.now }
{
    id == KEY_USAGE.as_slice()
        || id == SUBJECT_NAME.as_slice()
        || id == BASIC_CONSTRAINTS.as_slice()
        || id == EXTENDED_KEY_USAGE.as_slice()
}
