// The worked examples of docs/RULES.md that are proved, in one list. The others are run by a program.
#![tactic(auto)]

ghost use Rattle.worked_examples.specs.BuiltIn.{BuiltInExamples};
ghost use Rattle.worked_examples.specs.Capacities.{CapacityExamples};
ghost use Rattle.worked_examples.specs.Hollow.{HollowLaw};
ghost use Rattle.worked_examples.specs.HostCalls.{EarlyExamples, OrdinalExamples};
ghost use Rattle.worked_examples.specs.Lives.{LifeExamples};
ghost use Rattle.worked_examples.specs.Steps.{BindExamples, FillExamples, ResolveExamples};

pub fn examples_hold()
    ensures built_in { BuiltInExamples }
    ensures fill { FillExamples }
    ensures resolve { ResolveExamples }
    ensures bind { BindExamples }
    ensures life { LifeExamples }
    ensures early { EarlyExamples }
    ensures ordinal { OrdinalExamples }
    ensures capacities { CapacityExamples }
{}

// Hollow bodies do not satisfy what is said: one that keeps nothing, answers nothing or the same for all, that stops a round short,
// makes up its count, pays for no round, or always refuses.
pub fn hollow_bodies_fail()
    ensures { HollowLaw }
{}
