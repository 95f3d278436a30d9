//! The variables that a style asks of an entry or of a cite.

/// A variable whose answer is a text.
#[derive(Clone, Copy, Debug, PartialEq, Eq, Hash)]
pub enum StandardVariable {
    Abstract,
    Annote,
    Archive,
    ArchiveCollection,
    ArchiveLocation,
    ArchivePlace,
    Authority,
    CallNumber,
    CitationKey,
    CitationLabel,
    CollectionTitle,
    ContainerTitle,
    ContainerTitleShort,
    Dimensions,
    Division,
    Doi,
    Event,
    EventPlace,
    EventTitle,
    Genre,
    Isbn,
    Issn,
    Jurisdiction,
    Keyword,
    Language,
    License,
    Medium,
    Note,
    OriginalPublisher,
    OriginalPublisherPlace,
    OriginalTitle,
    PartTitle,
    Pmcid,
    Pmid,
    Publisher,
    PublisherPlace,
    References,
    ReviewedGenre,
    ReviewedTitle,
    Scale,
    Source,
    Status,
    Title,
    TitleShort,
    Url,
    VolumeTitle,
    YearSuffix,
}

/// A variable whose answer is a number, or a text instead of it.
#[derive(Clone, Copy, Debug, PartialEq, Eq, Hash)]
pub enum NumberVariable {
    ChapterNumber,
    CitationNumber,
    CollectionNumber,
    Edition,
    FirstReferenceNoteNumber,
    Issue,
    Locator,
    Number,
    NumberOfPages,
    NumberOfVolumes,
    PageFirst,
    PartNumber,
    PrintingNumber,
    Section,
    SupplementNumber,
    Version,
    Volume,
}

/// A variable whose answer is people.
#[derive(Clone, Copy, Debug, PartialEq, Eq, Hash)]
pub enum NameVariable {
    Author,
    Chair,
    CollectionEditor,
    Compiler,
    Composer,
    ContainerAuthor,
    Contributor,
    Curator,
    Director,
    Editor,
    EditorTranslator,
    EditorialDirector,
    ExecutiveProducer,
    Guest,
    Host,
    Illustrator,
    Interviewer,
    Narrator,
    Organizer,
    OriginalAuthor,
    Performer,
    Producer,
    Recipient,
    ReviewedAuthor,
    ScriptWriter,
    SeriesCreator,
    Translator,
}

/// A variable whose answer is a date.
#[derive(Clone, Copy, Debug, PartialEq, Eq, Hash)]
pub enum DateVariable {
    Accessed,
    AvailableDate,
    EventDate,
    Issued,
    OriginalDate,
    Submitted,
}

/// A variable of any of these, or the pages.
#[derive(Clone, Copy, Debug, PartialEq, Eq, Hash)]
pub enum Variable {
    Standard(StandardVariable),
    Number(NumberVariable),
    Page,
    Name(NameVariable),
    Date(DateVariable),
}
