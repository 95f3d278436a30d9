//! The words of variables.

use rendering_taxonomy::{DateVariable, NameVariable, NumberVariable, StandardVariable, Variable};

/// Variables whose answer is a text.
pub const TEXT_VARIABLES: &[(&str, StandardVariable)] = &[
    ("abstract", StandardVariable::Abstract),
    ("annote", StandardVariable::Annote),
    ("archive", StandardVariable::Archive),
    ("archive_collection", StandardVariable::ArchiveCollection),
    ("archive_location", StandardVariable::ArchiveLocation),
    ("archive-place", StandardVariable::ArchivePlace),
    ("authority", StandardVariable::Authority),
    ("call-number", StandardVariable::CallNumber),
    ("citation-key", StandardVariable::CitationKey),
    ("citation-label", StandardVariable::CitationLabel),
    ("collection-title", StandardVariable::CollectionTitle),
    ("container-title", StandardVariable::ContainerTitle),
    (
        "container-title-short",
        StandardVariable::ContainerTitleShort,
    ),
    ("dimensions", StandardVariable::Dimensions),
    ("division", StandardVariable::Division),
    ("DOI", StandardVariable::Doi),
    ("event", StandardVariable::Event),
    ("event-place", StandardVariable::EventPlace),
    ("event-title", StandardVariable::EventTitle),
    ("genre", StandardVariable::Genre),
    ("ISBN", StandardVariable::Isbn),
    ("ISSN", StandardVariable::Issn),
    ("jurisdiction", StandardVariable::Jurisdiction),
    ("keyword", StandardVariable::Keyword),
    ("language", StandardVariable::Language),
    ("license", StandardVariable::License),
    ("medium", StandardVariable::Medium),
    ("note", StandardVariable::Note),
    ("original-publisher", StandardVariable::OriginalPublisher),
    (
        "original-publisher-place",
        StandardVariable::OriginalPublisherPlace,
    ),
    ("original-title", StandardVariable::OriginalTitle),
    ("part-title", StandardVariable::PartTitle),
    ("PMCID", StandardVariable::Pmcid),
    ("PMID", StandardVariable::Pmid),
    ("publisher", StandardVariable::Publisher),
    ("publisher-place", StandardVariable::PublisherPlace),
    ("references", StandardVariable::References),
    ("reviewed-genre", StandardVariable::ReviewedGenre),
    ("reviewed-title", StandardVariable::ReviewedTitle),
    ("scale", StandardVariable::Scale),
    ("source", StandardVariable::Source),
    ("status", StandardVariable::Status),
    ("title", StandardVariable::Title),
    ("title-short", StandardVariable::TitleShort),
    ("URL", StandardVariable::Url),
    ("volume-title", StandardVariable::VolumeTitle),
    ("year-suffix", StandardVariable::YearSuffix),
];

/// Variables whose answer is a number, and the page.
pub const NUMBER_VARIABLES: &[(&str, Variable)] = &[
    (
        "chapter-number",
        Variable::Number(NumberVariable::ChapterNumber),
    ),
    (
        "citation-number",
        Variable::Number(NumberVariable::CitationNumber),
    ),
    (
        "collection-number",
        Variable::Number(NumberVariable::CollectionNumber),
    ),
    ("edition", Variable::Number(NumberVariable::Edition)),
    (
        "first-reference-note-number",
        Variable::Number(NumberVariable::FirstReferenceNoteNumber),
    ),
    ("issue", Variable::Number(NumberVariable::Issue)),
    ("locator", Variable::Number(NumberVariable::Locator)),
    ("number", Variable::Number(NumberVariable::Number)),
    (
        "number-of-pages",
        Variable::Number(NumberVariable::NumberOfPages),
    ),
    (
        "number-of-volumes",
        Variable::Number(NumberVariable::NumberOfVolumes),
    ),
    ("page", Variable::Page),
    ("page-first", Variable::Number(NumberVariable::PageFirst)),
    ("part-number", Variable::Number(NumberVariable::PartNumber)),
    (
        "printing-number",
        Variable::Number(NumberVariable::PrintingNumber),
    ),
    ("section", Variable::Number(NumberVariable::Section)),
    (
        "supplement-number",
        Variable::Number(NumberVariable::SupplementNumber),
    ),
    ("version", Variable::Number(NumberVariable::Version)),
    ("volume", Variable::Number(NumberVariable::Volume)),
];

/// Variables whose answer is people.
pub const NAME_VARIABLES: &[(&str, NameVariable)] = &[
    ("author", NameVariable::Author),
    ("chair", NameVariable::Chair),
    ("collection-editor", NameVariable::CollectionEditor),
    ("compiler", NameVariable::Compiler),
    ("composer", NameVariable::Composer),
    ("container-author", NameVariable::ContainerAuthor),
    ("contributor", NameVariable::Contributor),
    ("curator", NameVariable::Curator),
    ("director", NameVariable::Director),
    ("editor", NameVariable::Editor),
    ("editor-translator", NameVariable::EditorTranslator),
    ("editorial-director", NameVariable::EditorialDirector),
    ("executive-producer", NameVariable::ExecutiveProducer),
    ("guest", NameVariable::Guest),
    ("host", NameVariable::Host),
    ("illustrator", NameVariable::Illustrator),
    ("interviewer", NameVariable::Interviewer),
    ("narrator", NameVariable::Narrator),
    ("organizer", NameVariable::Organizer),
    ("original-author", NameVariable::OriginalAuthor),
    ("performer", NameVariable::Performer),
    ("producer", NameVariable::Producer),
    ("recipient", NameVariable::Recipient),
    ("reviewed-author", NameVariable::ReviewedAuthor),
    ("script-writer", NameVariable::ScriptWriter),
    ("series-creator", NameVariable::SeriesCreator),
    ("translator", NameVariable::Translator),
];

/// Variables whose answer is a date.
pub const DATE_VARIABLES: &[(&str, DateVariable)] = &[
    ("accessed", DateVariable::Accessed),
    ("available-date", DateVariable::AvailableDate),
    ("event-date", DateVariable::EventDate),
    ("issued", DateVariable::Issued),
    ("original-date", DateVariable::OriginalDate),
    ("submitted", DateVariable::Submitted),
];
