//! What a driver gives.

use rendering_taxonomy::SecondFieldAlign;
use rendering_tree::{ElemChild, ElemChildren};
use std::num::NonZeroI16;

/// What `BibliographyDriver::finish` gives.
#[derive(Debug, Drop)]
pub struct Rendered {
    /// The bibliography of all entries that are cited; none where the style of the bibliography has no layout for it.
    pub bibliography: Option<RenderedBibliography>,
    /// A citation for each request, in the order in which these were added.
    pub citations: Vec<RenderedCitation>,
    /// How many cites and items of the bibliography styles were asked to print: at most five for each item of a request, or six where given
    /// names are printed before cites are compared, and one for each cited entry where there is a bibliography. It stays at the greatest
    /// number that it holds.
    pub effort: u64,
}

/// A bibliography, with what its style says of how its lines are laid out.
#[derive(Debug, Drop)]
pub struct RenderedBibliography {
    /// Whether all lines of an item but the first are indented, as the style says.
    pub hanging_indent: bool,
    /// Where the first field of an item stands, beside which the second one and all others are aligned; none where the style aligns nothing.
    pub second_field_align: Option<SecondFieldAlign>,
    /// The distance from line to line in an item, as a multiple of a line's height, as the style says.
    pub line_spacing: NonZeroI16,
    /// The space between two items, as a multiple of a line's height, as the style says.
    pub entry_spacing: i16,
    /// An item for each cited entry, in the order of their numbers.
    pub items: Vec<BibliographyItem>,
}

/// An item of a bibliography.
#[derive(Debug, Drop)]
pub struct BibliographyItem {
    /// The key of its entry, as this answers it.
    pub key: String,
    /// The first field, where the style aligns the second one: of what the item prints, the first element that stands for something. It is
    /// always an `ElemChild::Elem`. None where nothing is aligned, or where there is no such element.
    pub first_field: Option<ElemChild>,
    /// All that the item prints but its first field, as a tree in its normal form.
    pub content: ElemChildren,
}

/// The citation of a request.
#[derive(Debug, Drop)]
pub struct RenderedCitation {
    /// The number of the note that it stands in, as its request says; none in a style without notes.
    pub note_number: Option<usize>,
    /// What is printed, as a tree in its normal form: each cite that is shown is an element that stands for the index of its item in the
    /// request, from zero. Empty where all items are hidden.
    pub citation: ElemChildren,
}
