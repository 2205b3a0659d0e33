//! What the values in a policy and in a layout are.
ghost use Rattle.std.specs.Prelude.{◌≡◌};
ghost use Rattle.it_repeats.specs.Parts.{item_part, member_part, only};

/// A part of a policy or of a layout, as far as the members of its objects are looked at.
#[derive(Clone, Copy)]
pub(crate) enum Part {
    /// The policy itself.
    Policy,
    /// The layout itself.
    Layout,
    /// Key objects under their ids.
    Keys,
    /// A key object.
    Key,
    /// The `keyval` of a key object.
    KeyValue,
    /// The expectations of a policy.
    Expectations,
    /// An expectation.
    Expectation,
    /// The builders of an expectation.
    Builders,
    /// A builder.
    Builder,
    /// The parameters of an expectation, or a value at any depth in them.
    Parameters,
    /// The steps of a layout.
    Steps,
    /// A step.
    Step,
    /// The inspections of a layout.
    Inspections,
    /// An inspection.
    Inspection,
}

impl Part {
    /// What the member of this name is in an object that is such a part, if its objects are looked
    /// at. Takes no memory.
    pub(crate) fn member(self, name: &str) -> Option<Part>
        ensures { result ≡ member_part self name.now }
    {
        match self {
            Part::Policy => of_policy(name),
            Part::Layout => of_layout(name),
            Part::Keys => Some(Part::Key),
            Part::Key => only("keyval", Part::KeyValue, name),
            Part::Expectation => of_expectation(name),
            Part::Builder => only("keys", Part::Keys, name),
            Part::Parameters => Some(Part::Parameters),
            Part::KeyValue | Part::Step | Part::Inspection => None,
            Part::Expectations | Part::Builders | Part::Steps | Part::Inspections => None,
        }
    }

    /// What the items are in a list that is such a part, if their objects are looked at. Takes no
    /// memory.
    pub(crate) fn item(self) -> Option<Part>
        ensures { result ≡ item_part self }
    {
        match self {
            Part::Expectations => Some(Part::Expectation),
            Part::Builders => Some(Part::Builder),
            Part::Parameters => Some(Part::Parameters),
            Part::Steps => Some(Part::Step),
            Part::Inspections => Some(Part::Inspection),
            Part::Policy | Part::Layout | Part::Keys | Part::Key | Part::KeyValue => None,
            Part::Expectation | Part::Builder | Part::Step | Part::Inspection => None,
        }
    }
}

fn of_policy(name: &str) -> Option<Part>
    ensures { result ≡ member_part Part.Policy name.now }
{
    let keys = only("owners", Part::Keys, name);
    keys.or(only("expectations", Part::Expectations, name))
}

fn of_layout(name: &str) -> Option<Part>
    ensures { result ≡ member_part Part.Layout name.now }
{
    let keys = only("keys", Part::Keys, name);
    let steps = only("steps", Part::Steps, name);
    let inspections = only("inspect", Part::Inspections, name);
    keys.or(steps.or(inspections))
}

fn of_expectation(name: &str) -> Option<Part>
    ensures { result ≡ member_part Part.Expectation name.now }
{
    let builders = only("builders", Part::Builders, name);
    builders.or(only("parameters", Part::Parameters, name))
}

/// This part for a member of that name, and nothing for one of another name.
fn only(name: &str, part: Part, given: &str) -> Option<Part>
    ensures { result ≡ only name.now part given.now }
{
    if given == name { Some(part) } else { None }
}
