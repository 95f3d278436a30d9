//! Trees that say the same.

ghost use Rattle.csl_laws.specs.Laws.{AlikeTreesMeanTheSame, AlikeTreesAreFaultlessTogether};

/// Two trees mean the same where they differ in the order of attributes, in places, and in texts that do not count.
pub fn alike_trees_mean_the_same()
    ensures { AlikeTreesMeanTheSame }
{}

/// Of two such trees none has a fault, or both have one.
pub fn alike_trees_are_faultless_together()
    ensures { AlikeTreesAreFaultlessTogether }
{}
