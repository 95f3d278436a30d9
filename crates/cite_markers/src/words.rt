//! The words of a marker: what each purpose and each label is called.

ghost use Rattle.std.specs.Prelude.{◌≡◌};
ghost use Rattle.std.specs.List.{find};
ghost use Rattle.std.specs.Str.{bytes_eq};
ghost use Rattle.cite_markers.specs.Words.{purpose_word, purpose_of, label_word, label_of};

use rendering_taxonomy::{CitePurpose, Locator};

/// The purpose of that word, or none.
#[tactic(auto, unfolding(crate::specs::Words::purpose_of))]
pub(crate) fn purpose_of(word: &str) -> Option<CitePurpose>
    ensures { result ≡ purpose_of word.now }
{
    match word {
        "author" => Some(CitePurpose::Author),
        "year" => Some(CitePurpose::Year),
        "full" => Some(CitePurpose::Full),
        "prose" => Some(CitePurpose::Prose),
        _ => None,
    }
}

/// The labels that a marker names.
const LABELS: [Locator; 18] = [
    Locator::Book,
    Locator::Chapter,
    Locator::Column,
    Locator::Figure,
    Locator::Folio,
    Locator::Issue,
    Locator::Line,
    Locator::Note,
    Locator::Opus,
    Locator::Page,
    Locator::Paragraph,
    Locator::Part,
    Locator::Section,
    Locator::SubVerbo,
    Locator::Verse,
    Locator::Volume,
    Locator::Supplement,
    Locator::Custom,
];

/// The label of that word, or none.
#[tactic(auto, unfolding(crate::specs::Words::label_of))]
pub(crate) fn label_of(word: &str) -> Option<Locator>
    ensures { result ≡ label_of word.now }
{
    first_called(word, &LABELS)
}

fn first_called(word: &str, labels: &[Locator]) -> Option<Locator>
    ensures { result ≡ find (λ l. bytes_eq word.now (label_word l)) labels.now }
{
    for label in labels {
        if word == label_word(*label) {
            return Some(*label);
        }
    }
    None
}

/// The word of a label.
fn label_word(label: Locator) -> &'static str
    ensures { result.now ≡ label_word label }
{
    match label {
        Locator::Act => "act",
        Locator::Appendix => "appendix",
        Locator::ArticleLocator => "article-locator",
        Locator::Book => "book",
        Locator::Canon => "canon",
        Locator::Chapter => "chapter",
        Locator::Column => "column",
        Locator::Elocation => "elocation",
        Locator::Equation => "equation",
        Locator::Figure => "figure",
        Locator::Folio => "folio",
        Locator::Issue => "issue",
        Locator::Line => "line",
        Locator::Note => "note",
        Locator::Opus => "opus",
        Locator::Page => "page",
        Locator::Paragraph => "paragraph",
        Locator::Part => "part",
        Locator::Rule => "rule",
        Locator::Scene => "scene",
        Locator::Section => "section",
        Locator::SubVerbo => "sub-verbo",
        Locator::Supplement => "supplement",
        Locator::Table => "table",
        Locator::Timestamp => "timestamp",
        Locator::TitleLocator => "title-locator",
        Locator::Verse => "verse",
        Locator::Version => "version",
        Locator::Volume => "volume",
        Locator::Custom => "custom",
    }
}
