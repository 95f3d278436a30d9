//! Laws of what texts mean and why they are refused.

ghost use Rattle.csl_styles.specs.Laws.{EachTextMeansOneFile, EachTextIsRefusedInOneWay, NoTextIsBoth, InfoSaysCategoriesAndParent};

/// A text means one file.
pub fn each_text_means_one_file()
    ensures { EachTextMeansOneFile }
{}

/// A text is refused in one way.
pub fn each_text_is_refused_in_one_way()
    ensures { EachTextIsRefusedInOneWay }
{}

/// A text that means something is not refused.
pub fn no_text_is_both()
    ensures { NoTextIsBoth }
{}

/// Of its `info` a file means the categories and the parent alone.
pub fn info_says_categories_and_parent()
    ensures { InfoSaysCategoriesAndParent }
{}
