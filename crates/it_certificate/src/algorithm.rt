//! The algorithm of a certificate's signature.
ghost use Rattle.std.specs.Prelude.{◌≡◌, MatchOption};
ghost use Rattle.it_certificate.specs.Algorithm.{algorithm_content};

/// ecdsa-with-SHA256 (RFC 5758, section 3.2).
const ECDSA_WITH_SHA256: [u8; 10] = [6, 8, 42, 134, 72, 206, 61, 4, 3, 2];

/// ecdsa-with-SHA384.
const ECDSA_WITH_SHA384: [u8; 10] = [6, 8, 42, 134, 72, 206, 61, 4, 3, 3];

/// The algorithm of a certificate's signature, by its digest: ECDSA with one of two.
#[derive(Clone, Copy)]
pub enum Algorithm {
    /// ECDSA with SHA-256.
    WithSha256,
    /// ECDSA with SHA-384.
    WithSha384,
}

/// The algorithm that the content of an AlgorithmIdentifier is. `None` where it is neither of the
/// two.
pub(crate) fn algorithm_in(content: &[u8]) -> Option<Algorithm>
    ensures { MatchOption result ((a : Algorithm) → content.now ≡ algorithm_content a → ⊥)
        (λ a. content.now ≡ algorithm_content a) }
{
    if content == ECDSA_WITH_SHA256.as_slice() {
        return Some(Algorithm::WithSha256);
    }
    if content == ECDSA_WITH_SHA384.as_slice() {
        return Some(Algorithm::WithSha384);
    }
    None
}
