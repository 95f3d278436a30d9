//! What is cited: an entry, and the part of it that is meant.

ghost use Rattle.std.specs.Prelude.{◌≡◌, IfOk};
ghost use Rattle.std.specs.Option.{option_map};
ghost use Rattle.rendering_locale.specs.CodeViews.{code_view};
ghost use Rattle.driver_requests.specs.Copies.{IsItemCopy, IsLocatorCopy};
ghost use Rattle.driver_requests.specs.Views.{request_locator_view, parts_of};

use rendering_context::SpecificLocator;
use rendering_locale::LocaleCode;
use rendering_taxonomy::CitePurpose;
use std::alloc::AllocError;

/// An entry that is cited, with the part of it that is meant, the language of its terms, and what the cite is for where it is no
/// ordinary one. A hidden item is counted and numbered, and not printed.
#[derive(Debug, PartialEq, Drop)]
pub struct CitationItem<'a, T, P> {
    pub entry: &'a T,
    pub locator: Option<SpecificLocator<'a, P>>,
    pub locale: Option<LocaleCode>,
    pub hidden: bool,
    pub purpose: Option<CitePurpose>,
}

impl<'a, T, P> CitationItem<'a, T, P> {
    ghost use Rattle.std.specs.Prelude.{◌≡◌, false, None, Some};
    ghost use Rattle.std.specs.Option.{option_map};
    ghost use Rattle.rendering_locale.specs.CodeViews.{code_view};
    ghost use Rattle.driver_requests.specs.Views.{request_locator_view, parts_of};

    /// The whole of an entry.
    pub fn with_entry(entry: &'a T) -> CitationItem<'a, T, P>
        ensures { parts_of result ≡ record { entry = entry.now; locator = None; locale = None; is_hidden = false; purpose = None } }
    {
        CitationItem::new(entry, None, None, false, None)
    }

    /// A part of an entry.
    pub fn with_locator(
        entry: &'a T,
        locator: Option<SpecificLocator<'a, P>>,
    ) -> CitationItem<'a, T, P>
        ensures { parts_of result ≡ record { entry = entry.now; locator = option_map request_locator_view locator.entry; locale = None; is_hidden = false; purpose = None } }
    {
        CitationItem::new(entry, locator, None, false, None)
    }

    /// An entry with all that can be asked of a cite.
    pub fn new(
        entry: &'a T,
        locator: Option<SpecificLocator<'a, P>>,
        locale: Option<LocaleCode>,
        hidden: bool,
        purpose: Option<CitePurpose>,
    ) -> CitationItem<'a, T, P>
        ensures { parts_of result ≡ record { entry = entry.now; locator = option_map request_locator_view locator.entry; locale = option_map code_view locale; is_hidden = hidden; purpose = purpose } }
    {
        CitationItem {
            entry,
            locator,
            locale,
            hidden,
            purpose,
        }
    }

    /// The same item for a purpose.
    pub fn kind(self, purpose: CitePurpose) -> CitationItem<'a, T, P>
        ensures { parts_of result ≡ record (parts_of self.entry) { purpose = Some purpose } }
    {
        let CitationItem {
            entry,
            locator,
            locale,
            hidden,
            purpose: _,
        } = self;
        CitationItem::new(entry, locator, locale, hidden, Some(purpose))
    }
}

impl<'a, T, P: Clone + PartialEq> CitationItem<'a, T, P> {
    /// A copy. It is the same item where copies of what the caller prints are the same as what they copy.
    ///
    /// # Errors
    /// Out of memory.
    pub fn clone(&self) -> Result<CitationItem<'a, T, P>, AllocError>
        ensures copy { IfOk result (λ i. IsItemCopy P.is_clone (parts_of self.now) (parts_of i)) }
        ensures same { ((p q : P) → P.is_clone p q → q ≡ p)
            → IfOk result (λ i. parts_of i ≡ parts_of self.now) }
    {
        let locator = copied_locator(&self.locator)?;
        let locale = copied_locale(&self.locale)?;
        Ok(CitationItem {
            entry: self.entry,
            locator,
            locale,
            hidden: self.hidden,
            purpose: self.purpose,
        })
    }
}

/// A copy of a locator, where there is one.
fn copied_locator<'a, P: Clone + PartialEq>(
    locator: &Option<SpecificLocator<'a, P>>,
) -> Result<Option<SpecificLocator<'a, P>>, AllocError>
    ensures { IfOk result (λ l. IsLocatorCopy P.is_clone
        (option_map request_locator_view locator.now) (option_map request_locator_view l)) }
{
    match locator {
        Some(locator) => Ok(Some(locator.clone()?)),
        None => Ok(None),
    }
}

/// A copy of a code, where there is one.
fn copied_locale(locale: &Option<LocaleCode>) -> Result<Option<LocaleCode>, AllocError>
    ensures { IfOk result (λ l. option_map code_view l ≡ option_map code_view locale.now) }
{
    match locale {
        Some(locale) => Ok(Some(LocaleCode(locale.0.clone()?))),
        None => Ok(None),
    }
}
