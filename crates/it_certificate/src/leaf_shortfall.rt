//! Why a certificate is no leaf.
use crate::shortfall::CertificateShortfall;

/// The condition that a certificate misses where it is no leaf: the first of these that is true.
#[derive(Clone, Copy, Debug, PartialEq, Eq)]
pub enum LeafShortfall {
    /// It is no certificate that is read, since it misses this condition.
    Certificate(CertificateShortfall),
    /// Its key is not one of P-256.
    Key,
    /// It is not for signatures.
    Usage,
    /// It is not for code signing.
    Purpose,
    /// It is that of an authority.
    Authority,
    /// It does not have exactly one name of the kinds that are read.
    Name,
    /// It names no issuer, or two that differ.
    Issuer,
}
