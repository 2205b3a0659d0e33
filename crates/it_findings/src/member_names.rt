//! The names of the members that have a meaning at a place.
ghost use Rattle.std.specs.Prelude.{◌≡◌, map};
ghost use Rattle.it_findings.specs.MemberNames.{known_names as known_at};
ghost use Rattle.it_findings.specs.MemberNames.{read_names as read_at};

use crate::place::Place;

/// The names of the members that are looked at. Takes no memory.
pub fn read_names(place: &Place) -> &'static [&'static str]
    ensures { map (λ name. name.now) result.now ≡ read_at place.now }
{
    match place {
        Place::Policy => &["owners", "deliver", "expectations"],
        Place::Expectation(_) => &[
            "files",
            "builders",
            "buildType",
            "parameters",
            "ignore",
            "level",
        ],
        Place::Builder { .. } => &["id", "keys", "level"],
        Place::Layout => &["_type", "expires", "keys", "steps", "inspect"],
        Place::Step(_) => &[
            "name",
            "threshold",
            "pubkeys",
            "expected_materials",
            "expected_products",
        ],
        Place::Inspection(_) => &["name", "expected_materials", "expected_products"],
        Place::Key(_) => &["keytype", "scheme", "keyval"],
        Place::KeyValue(_) => &["public", "identity", "issuer"],
    }
}

/// The names of further members that in-toto 1.0 or its implementations know and that are not
/// looked at. Takes no memory.
pub fn known_names(place: &Place) -> &'static [&'static str]
    ensures { map (λ name. name.now) result.now ≡ known_at place.now }
{
    match place {
        Place::Policy | Place::Expectation(_) | Place::Builder { .. } => &[],
        Place::Layout => &["readme", "rootcas", "intermediatecas"],
        Place::Step(_) => &["_type", "expected_command", "cert_constraints"],
        Place::Inspection(_) => &["_type", "run"],
        Place::Key(_) => &[
            "keyid",
            "keyid_hash_algorithms",
            "type",
            "method",
            "hashes",
            "subkeys",
            "creation_time",
            "validity_period",
        ],
        Place::KeyValue(_) => &["private", "certificate"],
    }
}
