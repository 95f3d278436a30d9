//! Laws of what is printed of pages in a format.

ghost use Rattle.rendering_ranges.specs.Laws.{FormatsPrintWhatIsThere, PagesWithoutFormatAreAsTheyAre, SecondNumbersMeanTheirPage, TextsWithoutFormatAreDashed};

/// What is printed of a second number that does not come before the first one means the same page: with the front of the
/// first one before them its digits are whole.
pub fn second_numbers_mean_their_page()
    ensures { SecondNumbersMeanTheirPage }
{}

/// Without a format pages are printed as they are.
pub fn pages_without_format_are_as_they_are()
    ensures { PagesWithoutFormatAreAsTheyAre }
{}

/// Pages have a text in a format where they have one without.
pub fn formats_print_what_is_there()
    ensures { FormatsPrintWhatIsThere }
{}

/// Without a format a text that stands instead of pages has en dashes in its ranges, and is else as it is.
pub fn texts_without_format_are_dashed()
    ensures { TextsWithoutFormatAreDashed }
{}
