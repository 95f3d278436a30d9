//! Texts that spell trees that say the same.

ghost use Rattle.csl_laws.specs.Laws.{AlikeTextsMeanTheSame, AlikeTextsAreRefusedTogether};

/// Two texts that spell such trees mean the same.
pub fn alike_texts_mean_the_same()
    ensures { AlikeTextsMeanTheSame }
{}

/// Where one of them is refused, so is the other.
pub fn alike_texts_are_refused_together()
    ensures { AlikeTextsAreRefusedTogether }
{}
