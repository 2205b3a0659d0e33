//! Laws about the definitions of chains: functions that do nothing and whose contracts hold for
//! every layout, bundle and panel of checks.
ghost use Rattle.it_chain.specs.Laws.{AlikeChains, AlikePanelChains, AnswerIsRight};
ghost use Rattle.it_chain.specs.Laws.{ChainGoesDeeper, ChainIsOne};
ghost use Rattle.it_chain.specs.Laws.{ChainOrFirst, CostIsOne, FewestIsOne, FirstIsOne, FoundIsOne};
ghost use Rattle.it_chain.specs.Laws.{HasCost, HasFewest, HoldsOrFails, NoiseIsAlike};
ghost use Rattle.it_chain.specs.Laws.{SomeAnswersRight, WithheldChains};

/// The number of different keys that signed what counts for a step is unique.
pub fn found_is_one()
    ensures { FoundIsOne }
{}

/// A layout holds for a bundle with at most one list of records.
pub fn chain_is_one()
    ensures { ChainIsOne }
{}

/// A layout that holds for a bundle has no failure over it.
pub fn chain_or_first()
    ensures { ChainOrFirst }
{}

/// A layout has at most one first failure over a bundle.
pub fn first_is_one()
    ensures { FirstIsOne }
{}

/// A layout that holds for a bundle holds for it with the same records at every greater depth.
pub fn chain_goes_deeper()
    ensures { ChainGoesDeeper }
{}

/// Over bundles in which the same files count, a layout has the same result: the same records, or
/// the same first failure.
pub fn alike_chains()
    ensures { AlikeChains }
{}

/// A layout has the same result with panels that are alike on its keys, and on those of the
/// sublayouts that count, whatever numbers the panels give the keys.
pub fn alike_panel_chains()
    ensures { AlikePanelChains }
{}

/// Reordering or repeating files, or renaming them to another name that is claimed for the same
/// step, leaves bundles alike, and so do files that do not count, whatever they hold.
pub fn noise_is_alike()
    ensures { NoiseIsAlike }
{}

/// Where a layout holds for a bundle, then over a bundle in which less counts it has the same
/// records with no more keys, or fails at a threshold.
pub fn withheld_chains()
    ensures { WithheldChains }
{}

/// The deciding function gives the records with which a layout holds for a bundle, or its first
/// failure.
pub fn answer_is_right()
    ensures { AnswerIsRight }
{}

/// Functions exist that answer correctly for the crates below, so that the deciding function has
/// something to ask.
pub fn some_answers_right()
    ensures { SomeAnswersRight }
{}

/// A layout over a bundle holds with some records, or has a first failure: with `chain_or_first`,
/// always exactly one of the two.
pub fn holds_or_fails()
    ensures { HoldsOrFails }
{}

/// There is a number of checks that a layout over a bundle costs: with `cost_is_one`, exactly one.
pub fn has_cost()
    ensures { HasCost }
{}

/// The number of checks that a layout over a bundle costs is unique.
pub fn cost_is_one()
    ensures { CostIsOne }
{}

/// There is a least number of checks that a layout over a bundle takes: with `fewest_is_one`,
/// exactly one.
pub fn has_fewest()
    ensures { HasFewest }
{}

/// The least number of checks that a layout over a bundle takes is unique.
pub fn fewest_is_one()
    ensures { FewestIsOne }
{}
