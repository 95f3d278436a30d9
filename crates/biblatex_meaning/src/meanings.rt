//! What texts mean.

ghost use Rattle.biblatex_meaning.specs.Meanings.{AllThatIsReadIsWellRead, AllThatIsReadComesToAnAnswer, EachTextHasOneMeaning};

/// In what is read of entries, each name means the last entry that has it.
pub fn all_that_is_read_is_well_read()
    ensures { AllThatIsReadIsWellRead }
{}

/// Entries that were read come to resolved entries, or to the refusal for the first that cannot be resolved.
pub fn all_that_is_read_comes_to_an_answer()
    ensures { AllThatIsReadComesToAnAnswer }
{}

/// Each list of characters means entries or a refusal, and only one of all.
pub fn each_text_has_one_meaning()
    ensures { EachTextHasOneMeaning }
{}
