//! The months, which are known without a definition.

ghost use Rattle.std.specs.Prelude.{◌≡◌, MatchOption, Some, None};
ghost use Rattle.biblatex_fields.specs.Month.{month};

/// The English name in full of a month that is named by its first three letters, in lower case.
pub(crate) fn month(name: &str) -> Option<&'static str>
    ensures { MatchOption result (month name.now ≡ None) (λ text. month name.now ≡ Some text.now) }
{
    match name {
        "jan" => Some("January"),
        "feb" => Some("February"),
        "mar" => Some("March"),
        "apr" => Some("April"),
        "may" => Some("May"),
        "jun" => Some("June"),
        "jul" => Some("July"),
        "aug" => Some("August"),
        "sep" => Some("September"),
        "oct" => Some("October"),
        "nov" => Some("November"),
        "dec" => Some("December"),
        _ => None,
    }
}
