//! The words of terms that are no variables, labels and kinds.

use rendering_taxonomy::{Gender, OrdinalMatch, OtherTerm, Term, TermForm};

/// Other terms.
pub const OTHER_TERMS: &[(&str, OtherTerm)] = &[
    ("ad", OtherTerm::Ad),
    (
        "advance-online-publication",
        OtherTerm::AdvanceOnlinePublication,
    ),
    ("album", OtherTerm::Album),
    ("and", OtherTerm::And),
    ("and others", OtherTerm::AndOthers),
    ("anonymous", OtherTerm::Anonymous),
    ("at", OtherTerm::At),
    ("audio-recording", OtherTerm::AudioRecording),
    ("available at", OtherTerm::AvailableAt),
    ("bc", OtherTerm::Bc),
    ("bce", OtherTerm::Bce),
    ("by", OtherTerm::By),
    ("ce", OtherTerm::Ce),
    ("circa", OtherTerm::Circa),
    ("cited", OtherTerm::Cited),
    ("close-inner-quote", OtherTerm::CloseInnerQuote),
    ("close-quote", OtherTerm::CloseQuote),
    ("colon", OtherTerm::Colon),
    ("comma", OtherTerm::Comma),
    ("editortranslator", OtherTerm::EditorTranslator),
    ("et-al", OtherTerm::EtAl),
    ("film", OtherTerm::Film),
    ("forthcoming", OtherTerm::Forthcoming),
    ("from", OtherTerm::From),
    ("henceforth", OtherTerm::Henceforth),
    ("ibid", OtherTerm::Ibid),
    ("in", OtherTerm::In),
    ("in press", OtherTerm::InPress),
    ("internet", OtherTerm::Internet),
    ("letter", OtherTerm::Letter),
    ("loc-cit", OtherTerm::LocCit),
    ("no date", OtherTerm::NoDate),
    ("no-place", OtherTerm::NoPlace),
    ("no-publisher", OtherTerm::NoPublisher),
    ("on", OtherTerm::On),
    ("online", OtherTerm::Online),
    ("op-cit", OtherTerm::OpCit),
    ("open-inner-quote", OtherTerm::OpenInnerQuote),
    ("open-quote", OtherTerm::OpenQuote),
    ("original-work-published", OtherTerm::OriginalWorkPublished),
    ("page-range-delimiter", OtherTerm::PageRangeDelimiter),
    ("personal-communication", OtherTerm::PersonalCommunication),
    ("podcast", OtherTerm::Podcast),
    ("podcast-episode", OtherTerm::PodcastEpisode),
    ("preprint", OtherTerm::Preprint),
    ("presented at", OtherTerm::PresentedAt),
    ("radio-broadcast", OtherTerm::RadioBroadcast),
    ("radio-series", OtherTerm::RadioSeries),
    ("radio-series-episode", OtherTerm::RadioSeriesEpisode),
    ("reference", OtherTerm::Reference),
    ("retrieved", OtherTerm::Retrieved),
    ("semicolon", OtherTerm::Semicolon),
    ("special-issue", OtherTerm::SpecialIssue),
    ("special-section", OtherTerm::SpecialSection),
    ("television-broadcast", OtherTerm::TelevisionBroadcast),
    ("television-series", OtherTerm::TelevisionSeries),
    (
        "television-series-episode",
        OtherTerm::TelevisionSeriesEpisode,
    ),
    ("video", OtherTerm::Video),
    ("working-paper", OtherTerm::WorkingPaper),
];

/// Months and seasons, counted from zero.
pub const DATE_TERMS: &[(&str, Term)] = &[
    ("month-01", Term::Month(0)),
    ("month-02", Term::Month(1)),
    ("month-03", Term::Month(2)),
    ("month-04", Term::Month(3)),
    ("month-05", Term::Month(4)),
    ("month-06", Term::Month(5)),
    ("month-07", Term::Month(6)),
    ("month-08", Term::Month(7)),
    ("month-09", Term::Month(8)),
    ("month-10", Term::Month(9)),
    ("month-11", Term::Month(10)),
    ("month-12", Term::Month(11)),
    ("season-01", Term::Season(0)),
    ("season-02", Term::Season(1)),
    ("season-03", Term::Season(2)),
    ("season-04", Term::Season(3)),
];

/// Forms of terms.
pub const TERM_FORMS: &[(&str, TermForm)] = &[
    ("long", TermForm::Long),
    ("short", TermForm::Short),
    ("verb", TermForm::Verb),
    ("verb-short", TermForm::VerbShort),
    ("symbol", TermForm::Symbol),
];

/// `gender` of a term, and `gender-form` of an ending of ordinal numbers.
pub const GENDERS: &[(&str, Gender)] = &[
    ("feminine", Gender::Feminine),
    ("masculine", Gender::Masculine),
];

/// `match` of an ending of ordinal numbers.
pub const ORDINAL_MATCHES: &[(&str, OrdinalMatch)] = &[
    ("last-digit", OrdinalMatch::LastDigit),
    ("last-two-digits", OrdinalMatch::LastTwoDigits),
    ("whole-number", OrdinalMatch::WholeNumber),
];
