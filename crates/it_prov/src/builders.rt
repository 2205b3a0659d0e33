//! Who built what an envelope attests.
ghost use Rattle.std.specs.Prelude.{◌≡◌, ◌*◌, ◌≤◌, IfSome, length};
ghost use Rattle.it_dsse.specs.Meter.{RaisedBy};
ghost use Rattle.it_dsse.specs.Panel.{Panel};
ghost use Rattle.it_dsse.specs.declared.envelope.Envelope.{Envelope};
ghost use Rattle.it_prov.specs.Answered.{AreAnswers};
ghost use Rattle.it_prov.specs.Asked.{AtLeast};
ghost use Rattle.it_prov.specs.Cost.{key_count};
ghost use Rattle.it_prov.specs.inside.Judged.{IsAskedOfBuilders, IsBuiltBy};
ghost use Rattle.it_prov.specs.inside.Judged.{IsEnoughOrGreatest, OfSome};

use crate::levels::greater;
use crate::shared_answers::BuilderAnswers;
use it_docs::policy::Builder;
use it_dsse::meter::Meter;

/// The level of a builder that has this id and signed the envelope, by the `answers` for the
/// builders: the first that is at least the wanted one, otherwise the greatest. `None` where no
/// builder with this id signed.
pub(crate) fn level_of_builders(
    builders: &[Builder],
    answers: &BuilderAnswers,
    id: &str,
    wanted: u8,
    meter: &mut Meter,
) -> Option<u8>
    requires { length answers.now ≡ length builders.now }
    ensures answer { (panel : Panel) (envelope : Envelope)
        → AreAnswers panel envelope builders.now answers.now
        → IsEnoughOrGreatest wanted (OfSome (IsBuiltBy panel envelope id.now) builders.now) result }
    ensures at_most { (panel : Panel) (envelope : Envelope)
        → AreAnswers panel envelope builders.now answers.now
        → RaisedBy (λ n. n ≤ key_count builders.now * length envelope.signatures)
        meter.old meter.new }
    ensures at_least { (panel : Panel) (envelope : Envelope)
        → AreAnswers panel envelope builders.now answers.now
        → IfSome result (λ level. wanted ≤ level → RaisedBy (AtLeast
        (IsAskedOfBuilders panel envelope builders.now id.now wanted)) meter.old meter.new) }
{
    let mut best = None;
    for (index, builder) in builders.iter().enumerate() {
        if builder.id.as_str() == id && answers.for_builder(index).recall(meter) {
            if builder.level >= wanted {
                return Some(builder.level);
            }
            best = greater(best, Some(builder.level));
        }
    }
    best
}
