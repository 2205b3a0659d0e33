//! Laws about certificates: functions that do nothing, and whose contracts say what is true of all
//! bytes.
ghost use Rattle.it_certificate.specs.Laws.{NoCertificate, OneCertificate, OneIssuingShortfall};
ghost use Rattle.it_certificate.specs.Laws.{OneLeaf, OneList, OneShortfall, OneWhole};

/// Bytes have the parts of a certificate in at most one way.
pub fn one_certificate()
    ensures { OneCertificate }
{}

/// The part of a certificate that has its extensions is extensions in at most one way.
pub fn one_list()
    ensures { OneList }
{}

/// Bytes are a certificate in at most one way.
pub fn one_whole()
    ensures { OneWhole }
{}

/// Bytes are a leaf in at most one way.
pub fn one_leaf()
    ensures { OneLeaf }
{}

/// Bytes miss at most one condition of a certificate.
pub fn one_shortfall()
    ensures { OneShortfall }
{}

/// Bytes that miss one are no certificate.
pub fn no_certificate()
    ensures { NoCertificate }
{}

/// A certificate misses at most one condition to issue others.
pub fn one_issuing_shortfall()
    ensures { OneIssuingShortfall }
{}
