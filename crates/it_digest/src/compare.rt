//! Digest sets and their comparison.

ghost use Rattle.std.specs.Prelude.{◌≡◌, ◌↔◌};
ghost use Rattle.it_digest.specs.DigestSet.{in_sha256, in_sha512, only};
ghost use Rattle.it_digest.specs.Compare.{Agree, Apart, Differ, compared, compared_values, joined};

/// The digests of one artifact, each under its algorithm; an algorithm may be missing.
#[derive(Clone, Copy, Debug, PartialEq, Eq)]
pub struct DigestSet {
    /// The 32 bytes of the SHA-256.
    pub sha256: Option<[u8; 32]>,
    /// The 48 bytes of the SHA-384.
    pub sha384: Option<[u8; 48]>,
    /// The 64 bytes of the SHA-512.
    pub sha512: Option<[u8; 64]>,
}

/// How two digest sets compare.
#[derive(Clone, Copy, Debug, PartialEq, Eq)]
pub enum Compare {
    /// They share some algorithm, and each that they share has equal values.
    Agree,
    /// They share some algorithm with unequal values.
    Differ,
    /// They share no algorithm.
    Apart,
}

impl Compare {
    /// Both comparisons combined: `Differ` where either is, otherwise `Agree` where either is.
    fn and(self, other: Compare) -> Compare
        ensures { result ≡ joined self other }
    {
        match (self, other) {
            (Compare::Differ, _) | (_, Compare::Differ) => Compare::Differ,
            (Compare::Agree, _) | (_, Compare::Agree) => Compare::Agree,
            (Compare::Apart, Compare::Apart) => Compare::Apart,
        }
    }
}

impl DigestSet {
    /// The set with this SHA-256 and no other digest.
    pub(crate) fn of_sha256(digest: [u8; 32]) -> DigestSet
        ensures { result ≡ only in_sha256 digest }
    {
        DigestSet {
            sha256: Some(digest),
            sha384: None,
            sha512: None,
        }
    }

    /// The set with this SHA-512 and no other digest.
    pub(crate) fn of_sha512(digest: [u8; 64]) -> DigestSet
        ensures { result ≡ only in_sha512 digest }
    {
        DigestSet {
            sha256: None,
            sha384: None,
            sha512: Some(digest),
        }
    }

    /// Compares two digest sets. One algorithm with unequal values is enough for `Differ`, in
    /// links, delivered files and subjects alike. This is this profile's choice: in-toto
    /// Attestation v1 lets two sets match where the values of any acceptable algorithm do.
    pub fn compare(&self, other: &DigestSet) -> Compare
        ensures answer { result ≡ compared self.now other.now }
        ensures agree { (result ≡ Compare.Agree) ↔ Agree self.now other.now }
        ensures differ { (result ≡ Compare.Differ) ↔ Differ self.now other.now }
        ensures apart { (result ≡ Compare.Apart) ↔ Apart self.now other.now }
    {
        compare_values(&self.sha256, &other.sha256)
            .and(compare_values(&self.sha384, &other.sha384))
            .and(compare_values(&self.sha512, &other.sha512))
    }
}

/// Compares the values that one algorithm has in two sets.
fn compare_values<const N: usize>(a: &Option<[u8; N]>, b: &Option<[u8; N]>) -> Compare
    ensures { result ≡ compared_values a.now b.now }
{
    match (a, b) {
        (Some(a), Some(b)) if a == b => Compare::Agree,
        (Some(_), Some(_)) => Compare::Differ,
        _ => Compare::Apart,
    }
}
