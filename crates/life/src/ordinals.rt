// The ordinal of a name.

ghost use Rattle.life.specs.Ordinal.{OrdinalLaw};

// Ordinal answers i exactly where field i has the name that is asked, as bytes inside the host's text, and no later field has it.
pub fn ordinals_stand()
    ensures { OrdinalLaw }
{}
