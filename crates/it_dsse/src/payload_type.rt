//! The payload type of in-toto.

/// The payload type of layouts, links and Statements (DSSE v1.0, "Envelope", `payloadType`; in-toto
/// Attestation v1, envelope).
pub const IN_TOTO: &str = "application/vnd.in-toto+json";
