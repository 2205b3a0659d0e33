//! The members that are looked at in each part of a policy or a layout, in envelopes and in links.
ghost use Rattle.std.specs.Prelude.{◌≡◌, map};
ghost use Rattle.it_part_notes.specs.Members.{envelope_members as of_envelope};
ghost use Rattle.it_part_notes.specs.Members.{layout_members as of_layout};
ghost use Rattle.it_part_notes.specs.Members.{link_members as of_link};
ghost use Rattle.it_part_notes.specs.Members.{policy_members as of_policy, shown};

use crate::member::{Kind, Member};
use it_docs::layout_fault::LayoutPart;
use it_docs::policy_fault::PolicyPart;

/// The members of a part of a policy, in the order in which they are looked at. Takes no memory.
pub(crate) fn policy_members(part: PolicyPart) -> &'static [Member]
    ensures { map shown result.now ≡ of_policy part }
{
    match part {
        PolicyPart::Json => &[],
        PolicyPart::Owners => &[
            Member::Needed("owners", Kind::Keys),
            Member::Needed("owners", Kind::SomeKey),
        ],
        PolicyPart::Deliver => &[Member::Optional("deliver", Kind::Rules)],
        PolicyPart::Expectations => &[Member::Optional("expectations", Kind::Items)],
        PolicyPart::Expectation(_) => &[
            Member::Needed("files", Kind::Text),
            Member::Optional("builders", Kind::Builders),
            Member::Needed("buildType", Kind::Text),
            Member::Optional("parameters", Kind::Object),
            Member::Optional("ignore", Kind::Texts),
            Member::Optional("level", Kind::Level),
        ],
    }
}

/// The members of a part of a layout, in the order in which they are looked at. Takes no memory.
pub(crate) fn layout_members(part: &LayoutPart) -> &'static [Member]
    ensures { map shown result.now ≡ of_layout part.now }
{
    match part {
        LayoutPart::Json | LayoutPart::DuplicateName(_) => &[],
        LayoutPart::WrongType => &[Member::Needed("_type", Kind::Word)],
        LayoutPart::Expires => &[Member::Needed("expires", Kind::Moment)],
        LayoutPart::Keys => &[Member::Optional("keys", Kind::Keys)],
        LayoutPart::Steps => &[Member::Optional("steps", Kind::Items)],
        LayoutPart::Inspects => &[Member::Optional("inspect", Kind::Items)],
        LayoutPart::Step(_) => &[
            Member::Needed("name", Kind::Text),
            Member::Optional("threshold", Kind::Threshold),
            Member::Optional("pubkeys", Kind::Texts),
            Member::Optional("expected_materials", Kind::Rules),
            Member::Optional("expected_products", Kind::Rules),
        ],
        LayoutPart::Inspect(_) => &[
            Member::Needed("name", Kind::Text),
            Member::Optional("expected_materials", Kind::Rules),
            Member::Optional("expected_products", Kind::Rules),
        ],
    }
}

/// The members of an envelope, in the order in which they are looked at. Takes no memory.
pub(crate) fn envelope_members() -> &'static [Member]
    ensures { map shown result.now ≡ of_envelope }
{
    &[
        Member::Needed("payload", Kind::Base64),
        Member::Needed("payloadType", Kind::Text),
        Member::Needed("signatures", Kind::Signatures),
    ]
}

/// The members of a link, in the order in which they are looked at. Takes no memory.
pub(crate) fn link_members() -> &'static [Member]
    ensures { map shown result.now ≡ of_link }
{
    &[
        Member::Needed("_type", Kind::LinkWord),
        Member::Needed("name", Kind::Text),
        Member::Optional("materials", Kind::Artifacts),
        Member::Optional("products", Kind::Artifacts),
    ]
}
