//! The terms of locales.

use crate::{Kind, Locator, Variable};

/// A word of locales that is no variable, no label of a locator, no kind, no month and no season.
#[derive(Clone, Copy, Debug, PartialEq, Eq, Hash)]
pub enum OtherTerm {
    Ad,
    AdvanceOnlinePublication,
    Album,
    And,
    AndOthers,
    Anonymous,
    At,
    AudioRecording,
    AvailableAt,
    Bc,
    Bce,
    By,
    Ce,
    Circa,
    Cited,
    CloseInnerQuote,
    CloseQuote,
    Colon,
    Comma,
    EditorTranslator,
    EtAl,
    Film,
    Forthcoming,
    From,
    Henceforth,
    Ibid,
    In,
    InPress,
    Internet,
    Letter,
    LocCit,
    NoDate,
    NoPlace,
    NoPublisher,
    On,
    Online,
    OpCit,
    OpenInnerQuote,
    OpenQuote,
    OriginalWorkPublished,
    PageRangeDelimiter,
    PersonalCommunication,
    Podcast,
    PodcastEpisode,
    Preprint,
    PresentedAt,
    RadioBroadcast,
    RadioSeries,
    RadioSeriesEpisode,
    Reference,
    Retrieved,
    Semicolon,
    SpecialIssue,
    SpecialSection,
    TelevisionBroadcast,
    TelevisionSeries,
    TelevisionSeriesEpisode,
    Video,
    WorkingPaper,
}

/// A term.
#[derive(Clone, Copy, Debug, PartialEq, Eq, Hash)]
pub enum Term {
    Variable(Variable),
    Locator(Locator),
    Kind(Kind),
    Other(OtherTerm),
    /// A month, counted from zero.
    Month(u8),
    /// A season, counted from zero.
    Season(u8),
    /// A word that is none of these, by the number that the reader of a style or of a locale gives it.
    Word(u32),
}

/// The gender of a term.
#[derive(Clone, Copy, Debug, PartialEq, Eq, Hash)]
pub enum Gender {
    Feminine,
    Masculine,
    Neuter,
}

/// Which numbers an ending of ordinal numbers is of: those with this last digit or these last two digits, or the number alone.
#[derive(Clone, Copy, Debug, PartialEq, Eq, Hash)]
pub enum OrdinalMatch {
    LastDigit,
    LastTwoDigits,
    WholeNumber,
}

/// A form of a term.
#[derive(Clone, Copy, Debug, PartialEq, Eq, Hash)]
pub enum TermForm {
    Long,
    Short,
    Verb,
    VerbShort,
    Symbol,
}
