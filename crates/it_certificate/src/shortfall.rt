//! Why bytes are no certificate.

/// The condition that bytes miss where they are no certificate that is read: the first of these
/// that is true.
#[derive(Clone, Copy, Debug, PartialEq, Eq)]
pub enum CertificateShortfall {
    /// They do not have the parts of a certificate of version 3, in DER.
    Parts,
    /// The algorithm of its signature is not one that is read.
    Algorithm,
    /// Its validity is not two times in their forms.
    Validity,
    /// Its key is of another kind, or not in its form.
    Key,
    /// Its extensions miss this condition.
    Extensions(ExtensionsShortfall),
}

/// The condition that the extensions of a certificate miss: the first of these that is true.
#[derive(Clone, Copy, Debug, PartialEq, Eq)]
pub enum ExtensionsShortfall {
    /// They are no list of extensions.
    Form,
    /// One of them constrains names.
    NameConstraints,
    /// One that is critical is not known.
    Critical,
    /// Two have one identifier.
    Twice,
    /// The key usage, the basic constraints or the purposes are not in their forms.
    Values,
}
