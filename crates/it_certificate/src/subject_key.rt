//! The public key of a certificate's subject.
ghost use Rattle.std.specs.Prelude.{◌≡◌, ◌++◌, ℕ, List, MatchOption, length};
ghost use Rattle.it_certificate.specs.SubjectKey.{IsKeyContent};

/// What comes before the coordinates of a point of P-256: the identifiers of keys of elliptic
/// curves and of this one, and the front of a BIT STRING that holds a point that is not compressed.
const BEFORE_P256: [u8; 25] = [
    48, 19, 6, 7, 42, 134, 72, 206, 61, 2, 1, 6, 8, 42, 134, 72, 206, 61, 3, 1, 7, 3, 66, 0, 4,
];

/// The same for P-384.
const BEFORE_P384: [u8; 22] = [
    48, 16, 6, 7, 42, 134, 72, 206, 61, 2, 1, 6, 5, 43, 129, 4, 0, 34, 3, 98, 0, 4,
];

/// The curve of a key.
#[derive(Clone, Copy)]
pub enum Curve {
    /// P-256 (SP 800-186, section 3.2.1.3).
    P256,
    /// P-384 (SP 800-186, section 3.2.1.4).
    P384,
}

/// A key, of which nothing says that its point is one of its curve.
#[derive(Drop)]
pub struct SubjectKey<'b> {
    /// Its curve.
    pub curve: Curve,
    /// The two coordinates of its point, of 32 bytes each for P-256 and 48 for P-384.
    pub coordinates: &'b [u8],
}

/// The key that the content of a SubjectPublicKeyInfo is. `None` where it is no key of the two
/// curves.
pub(crate) fn key_in(content: &[u8]) -> Option<SubjectKey<'_>>
    ensures { MatchOption result
        ((curve : Curve) (coordinates : List ℕ) → IsKeyContent content.now curve coordinates → ⊥)
        (λ key. IsKeyContent content.now key.curve key.coordinates.now) }
{
    if let Some(coordinates) = after(content, &BEFORE_P256, 64) {
        return Some(SubjectKey {
            curve: Curve::P256,
            coordinates,
        });
    }
    if let Some(coordinates) = after(content, &BEFORE_P384, 96) {
        return Some(SubjectKey {
            curve: Curve::P384,
            coordinates,
        });
    }
    None
}

/// So many bytes that come after others and end the content.
fn after<'b>(content: &'b [u8], front: &[u8], size: usize) -> Option<&'b [u8]>
    ensures { MatchOption result
        ((rest : List ℕ) → length rest ≡ size → content.now ≡ front.now ++ rest → ⊥)
        (λ rest. (length rest.now ≡ size) × (content.now ≡ front.now ++ rest.now)) }
{
    let rest = content.strip_prefix(front)?;
    if rest.len() == size { Some(rest) } else { None }
}
