// What holds of policies and diagrams, for every lawful weight kind: each function stands for a theorem.
#![tactic(auto)]

ghost use Rattle.std.specs.Prelude.{◌≢◌, ℕ};
ghost use Rattle.format.specs.Policy.{Policy};
ghost use Rattle.weights.specs.Weights.{Ops, Laws};
ghost use Rattle.meaning.specs.Leaves.{Action};
ghost use Rattle.meaning.specs.Diagrams.{Diagram, Formed, weigh};
ghost use Rattle.meaning.specs.Constructions.{join, prefix, sequence, negate};
ghost use Rattle.meaning.specs.Frames.{ToldApart};
ghost use Rattle.meaning.specs.Meanings.{Meaning, Means, IsNot};
ghost use Rattle.laws.specs.Claims.{Narrowed, Made, Chooses, Stars, DiagramOf, SameExactly};
ghost use Rattle.laws.specs.Claims.{OneMeaning, NarrowKeeps, MakeKeeps, Canonical, JoinIsUnion, ChooseIsChoice, PrefixGoesBefore, SequenceIsSequence, NegateIsNot, StarEnds, DiagramsGiveMeanings, DiagramsDecide};

// A policy means exactly one thing.
pub fn a_policy_has_one_meaning()
    ensures { OneMeaning }
{}

// Narrowing keeps weights where its test holds, and form, and does not grow a diagram.
pub fn narrow_keeps_weights()
    ensures { NarrowKeeps }
{}

// Make keeps the weights of its sides, and form.
pub fn make_keeps_weights()
    ensures { MakeKeeps }
{}

// Diagrams that differ have a frame in and a frame out that tell them apart.
pub fn different_diagrams_have_a_telling_frame()
    ensures { Canonical }
{}

pub fn join_is_union()
    ensures { JoinIsUnion }
{}

pub fn choose_is_choice_by_a_test()
    ensures { ChooseIsChoice }
{}

pub fn prefix_goes_before()
    ensures { PrefixGoesBefore }
{}

pub fn sequence_is_sequence()
    ensures { SequenceIsSequence }
{}

pub fn negate_is_not()
    ensures { NegateIsNot }
{}

// The rounds of star end, and where they end they are the star.
pub fn the_rounds_of_star_end()
    ensures { StarEnds }
{}

// A policy has one diagram, and it gives what the policy means.
pub fn diagrams_give_meanings()
    ensures { DiagramsGiveMeanings }
{}

// Policies mean the same exactly if their diagrams are the same.
pub fn equal_diagrams_exactly_for_equal_meanings()
    ensures { DiagramsDecide }
{}
