//! The part of a work that is cited.

ghost use Rattle.std.specs.Prelude.{◌≡◌, true, IfOk};
ghost use Rattle.std.specs.List.{list_any};
ghost use Rattle.std.specs.Str.{chars};
ghost use Rattle.literature_numbers.specs.Numerics.{numeral_of};
ghost use Rattle.rendering_context.specs.Answering as answering;
ghost use Rattle.rendering_context.specs.Views.{is_copy, payload_view, locator_view};

use literature_values::{Numeric, NumericError};
use rendering_taxonomy::Locator;
use std::alloc::{AllocError, Global};

/// A locator that the caller prints by itself. It is equal to another where the payloads are.
#[derive(Debug, PartialEq, Eq, Hash, Drop)]
pub struct TransparentLocator<P> {
    pub payload: P,
}

/// A text, or a locator that the caller prints by itself.
#[derive(Debug, PartialEq, Eq, Hash, Drop)]
pub enum LocatorPayload<'a, P> {
    Str(&'a str),
    Transparent(TransparentLocator<P>),
}

/// The part of a work that is cited: what it counts, and which it is.
#[derive(Debug, PartialEq, Eq, Hash, Drop)]
pub struct SpecificLocator<'a, P> {
    pub label: Locator,
    pub payload: LocatorPayload<'a, P>,
}

impl<P> TransparentLocator<P> {
    /// A locator with what the caller prints it from.
    pub fn new(payload: P) -> TransparentLocator<P>
        ensures { result.payload ≡ payload }
    {
        TransparentLocator { payload }
    }
}

impl<P: Clone + PartialEq> TransparentLocator<P> {
    /// A copy. It is equal to the locator where a copy of its payload is equal to the payload.
    ///
    /// # Errors
    /// Out of memory.
    pub fn clone(&self) -> Result<TransparentLocator<P>, AllocError>
        ensures copy { IfOk result (λ t. P.is_clone self.now.payload t.payload) }
        ensures equal { ((p q : P) → P.is_clone p q → P.eq p q ≡ true)
            → IfOk result (λ t. ⟦<TransparentLocator<P> as PartialEq>⟧.eq self.now t ≡ true) }
    {
        Ok(TransparentLocator {
            payload: self.payload.clone()?,
        })
    }
}

impl<'a, P: Clone + PartialEq> LocatorPayload<'a, P> {
    /// A copy. It is equal to the payload where copies of what the caller prints are equal to what they copy.
    ///
    /// # Errors
    /// Out of memory.
    pub fn clone(&self) -> Result<LocatorPayload<'a, P>, AllocError>
        ensures copy { IfOk result (λ l. is_copy P.is_clone self.now l) }
        ensures equal { ((p q : P) → P.is_clone p q → P.eq p q ≡ true)
            → IfOk result (λ l. ⟦<LocatorPayload<'a, P> as PartialEq>⟧.eq self.now l ≡ true) }
    {
        match self {
            LocatorPayload::Str(text) => Ok(LocatorPayload::Str(text)),
            LocatorPayload::Transparent(locator) => {
                Ok(LocatorPayload::Transparent(locator.clone()?))
            }
        }
    }
}

impl<'a, P: Clone + PartialEq> SpecificLocator<'a, P> {
    /// A copy. It is equal to the locator where copies of what the caller prints are equal to what they copy.
    ///
    /// # Errors
    /// Out of memory.
    pub fn clone(&self) -> Result<SpecificLocator<'a, P>, AllocError>
        ensures copy { IfOk result (λ l. (l.label ≡ self.now.label)
            × is_copy P.is_clone self.now.payload l.payload) }
        ensures equal { ((p q : P) → P.is_clone p q → P.eq p q ≡ true)
            → IfOk result (λ l. ⟦<SpecificLocator<'a, P> as PartialEq>⟧.eq self.now l ≡ true) }
    {
        let payload = self.payload.clone()?;
        Ok(SpecificLocator {
            label: self.label,
            payload,
        })
    }
}

impl<'a, P> SpecificLocator<'a, P> {
    /// The locator without what the caller prints by itself.
    pub fn without_payload(&self) -> SpecificLocator<'a, ()>
        ensures { locator_view result ≡ locator_view self.now }
    {
        SpecificLocator {
            label: self.label,
            payload: self.payload.without_payload(),
        }
    }
}

impl<'a, P> LocatorPayload<'a, P> {
    /// The payload without what the caller prints by itself.
    fn without_payload(&self) -> LocatorPayload<'a, ()>
        ensures { payload_view result ≡ payload_view self.now }
    {
        match self {
            LocatorPayload::Str(text) => LocatorPayload::Str(text),
            LocatorPayload::Transparent(_) => {
                LocatorPayload::Transparent(TransparentLocator { payload: () })
            }
        }
    }

    /// Whether there is a sign of more than one in the text.
    pub(crate) fn is_plural(&self) -> bool
        ensures { result ≡ answering.is_plural_payload (payload_view self.now) }
    {
        match self {
            LocatorPayload::Str(text) => has_range_sign(text),
            LocatorPayload::Transparent(_) => false,
        }
    }

    /// Whether the text spells a number.
    pub(crate) fn is_numeric(&self, alloc: Global) -> Result<bool, AllocError>
        ensures { IfOk result (λ b. b ≡ answering.is_numeric_payload (payload_view self.now)) }
    {
        match self {
            LocatorPayload::Str(text) => spells_number(alloc, text),
            LocatorPayload::Transparent(_) => Ok(false),
        }
    }
}

/// Whether there is a comma, an ampersand, a hyphen or an en dash.
pub(crate) fn has_range_sign(text: &str) -> bool
    ensures { result ≡ list_any answering.is_range_sign (chars text.now) }
{
    text.chars().any(|c| is_range_sign(c))
}

/// Whether it is a comma, an ampersand, a hyphen or an en dash.
pub fn is_range_sign(c: char) -> bool
    ensures { result ≡ answering.is_range_sign c }
{
    c == ',' || c == '&' || c == '-' || c == '\u{2013}'
}

fn spells_number(alloc: Global, text: &str) -> Result<bool, AllocError>
    ensures { IfOk result (λ b. b ≡ answering.spells_number (numeral_of (chars text.now))) }
{
    match Numeric::read(alloc, text) {
        Ok(_) => Ok(true),
        Err(NumericError::Malformed) => Ok(false),
        Err(NumericError::Memory) => Err(AllocError),
    }
}
