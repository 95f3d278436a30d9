//! A cite in the middle of a sentence.

ghost use Rattle.std.specs.Prelude.{◌≡◌, ◌∷◌, [], if◌then◌else◌, IfOk, OnOk};
ghost use Rattle.std.specs.List.{list_any};
ghost use Rattle.laws.specs.Characters.{space};
ghost use Rattle.laws.specs.Text.{spelled};
ghost use Rattle.rendering_leaves.specs.Views.{form_view};
ghost use Rattle.rendering_page.specs.Views.{frame_view};
ghost use Rattle.rendering_style.specs.Views.{style_parts_view};
ghost use Rattle.rendering.specs.Purposes.{begins_spaced, append_between, append_enclosed, append_framed, append_prose, is_identifier, prints_identifiers, prose_frame, rest_form, space_before, spaced_frame};
ghost use Rattle.rendering.specs.Views.{context_in, style_of};

use crate::call::Call;
use crate::default_texts::{text_or_close, text_or_open};
use crate::layout::{is_published, layout_manner};
use rendering_entries::EntryLike;
use rendering_leaves::{SpecialForm, State};
use rendering_page::{Frame, plain_manner};
use rendering_style::StyleParts;
use rendering_taxonomy::StyleCategory;
use std::alloc::AllocError;
use texts::{no_text, split_first, text_or_empty};

/// A form of the citation, with the texts before and after it.
#[derive(Clone, Copy)]
struct EnclosedForm<'a> {
    form: SpecialForm,
    prefix: &'a str,
    suffix: &'a str,
}

impl<'s, 'a> Call<'s, 'a> {
    /// Appends the authors, then the citation in its affixes; where cites are no numbers or labels, without the authors, and in
    /// parentheses if not in affixes.
    pub(crate) fn push_prose<E: EntryLike>(
        &self,
        entry: &'a E,
        state: &mut State<'a>,
    ) -> Result<(), AllocError>
        ensures { OnOk result (state.new ≡ append_prose (style_of self.now)
            (context_in (E.answers entry.entry.now) self.now) state.old) }
    {
        self.push_author(entry, state)?;
        let parts = self.walk.style.parts();
        let layout = &parts.citation.layout;
        if prints_identifiers(parts) {
            let prefix = text_or_empty(&layout.prefix);
            let suffix = text_or_empty(&layout.suffix);
            let form = SpecialForm::Whole;
            let enclosed = EnclosedForm {
                form,
                prefix,
                suffix,
            };
            self.push_between(entry, &enclosed, state)
        } else {
            let form = self.rest_form(entry)?;
            let prefix = text_or_open(&layout.prefix);
            let suffix = text_or_close(&layout.suffix);
            let enclosed = EnclosedForm {
                form,
                prefix,
                suffix,
            };
            self.push_between(entry, &enclosed, state)
        }
    }

    /// The form of the citation without the authors. In a published style nothing stands for these.
    fn rest_form<E: EntryLike>(&self, entry: &'a E) -> Result<SpecialForm, AllocError>
        ensures { IfOk result (λ f. form_view f ≡ rest_form (style_of self.now)
            (context_in (E.answers entry.entry.now) self.now)) }
    {
        if is_published(self.walk.style) {
            let variable = self.author_variable(entry)?;
            return Ok(SpecialForm::WithoutNames(variable));
        }
        Ok(SpecialForm::WithoutAuthor)
    }

    /// Appends a form of the citation between two texts, after a space.
    fn push_between<E: EntryLike>(
        &self,
        entry: &'a E,
        enclosed: &EnclosedForm<'a>,
        state: &mut State<'a>,
    ) -> Result<(), AllocError>
        ensures { OnOk result (state.new
            ≡ append_between (style_of self.now) (context_in (E.answers entry.entry.now) self.now)
            (form_view enclosed.now.form) (spelled enclosed.now.prefix)
            (spelled enclosed.now.suffix) state.old) }
    {
        if is_published(self.walk.style) {
            return self.push_framed(entry, enclosed, state);
        }
        self.push_enclosed(entry, enclosed, state)
    }

    /// Appends a form of the citation between two texts, after a space; nothing where the citation prints nothing.
    fn push_framed<E: EntryLike>(
        &self,
        entry: &'a E,
        enclosed: &EnclosedForm<'a>,
        state: &mut State<'a>,
    ) -> Result<(), AllocError>
        ensures { OnOk result (state.new
            ≡ append_framed (style_of self.now) (context_in (E.answers entry.entry.now) self.now)
            (form_view enclosed.now.form) (spelled enclosed.now.prefix)
            (spelled enclosed.now.suffix) state.old) }
    {
        let spaced = spaced_frame(enclosed.prefix, state);
        let frame = self.prose_frame(enclosed.prefix, enclosed.suffix);
        state.page.begin(&spaced)?;
        state.page.begin(&frame)?;
        self.push_citation(entry, enclosed.form, state)?;
        state.page.end(self.walk.context.quotes, &frame)?;
        state.page.end(self.walk.context.quotes, &spaced)
    }

    /// The element round the citation in prose.
    fn prose_frame(&self, prefix: &'a str, suffix: &'a str) -> Frame<'a>
        ensures { frame_view result
            ≡ prose_frame (style_of self.now) (spelled prefix.entry) (spelled suffix.entry) }
    {
        Frame {
            display: None,
            meta: None,
            manner: layout_manner(&self.walk.style.parts().citation.layout),
            prefix,
            suffix,
        }
    }

    /// Appends a form of the citation between two texts, after a space.
    fn push_enclosed<E: EntryLike>(
        &self,
        entry: &'a E,
        enclosed: &EnclosedForm<'a>,
        state: &mut State<'a>,
    ) -> Result<(), AllocError>
        ensures { OnOk result (state.new
            ≡ append_enclosed (style_of self.now) (context_in (E.answers entry.entry.now) self.now)
            (form_view enclosed.now.form) (spelled enclosed.now.prefix)
            (spelled enclosed.now.suffix) state.old) }
    {
        push_space_before(enclosed.prefix, state)?;
        self.push_own(enclosed.prefix, state)?;
        self.push_citation(entry, enclosed.form, state)?;
        self.push_own(enclosed.suffix, state)?;
        Ok(())
    }
}

/// The element round what comes after the authors: a space before it, unless nothing was printed or a text follows that begins with
/// white space.
fn spaced_frame<'a>(text: &str, state: &State<'_>) -> Frame<'a>
    ensures { frame_view result ≡ spaced_frame (spelled text.entry) state.now }
{
    Frame {
        display: None,
        meta: None,
        manner: plain_manner(),
        prefix: space_if(!begins_spaced(text) && state.page.has_printed()),
        suffix: no_text(),
    }
}

/// A space, where it is wanted.
#[tactic(auto, using(crate::proofs::Texts::space_characters))]
fn space_if(wanted: bool) -> &'static str
    ensures { spelled result ≡ (if wanted then space ∷ [] else []) }
{
    if wanted { " " } else { no_text() }
}

/// A space, but not before a text that begins with white space.
fn push_space_before(text: &str, state: &mut State<'_>) -> Result<(), AllocError>
    ensures { OnOk result (state.new ≡ space_before (spelled text.entry) state.old) }
{
    if begins_spaced(text) {
        Ok(())
    } else {
        state.page.ensure_space()
    }
}

/// Whether a text begins with white space.
fn begins_spaced(text: &str) -> bool
    ensures { result ≡ begins_spaced (spelled text.entry) }
{
    match split_first(text) {
        Some((first, _)) => first.is_whitespace(),
        None => false,
    }
}

/// Whether the style says that cites are made of numbers or labels.
fn prints_identifiers(parts: &StyleParts) -> bool
    ensures { result ≡ prints_identifiers (style_parts_view parts.now) }
{
    parts
        .categories
        .iter()
        .any(|category| is_identifier(*category))
}

/// Whether cites of the category are made of numbers or labels.
fn is_identifier(category: StyleCategory) -> bool
    ensures { result ≡ is_identifier category }
{
    match category {
        StyleCategory::Label | StyleCategory::Numeric => true,
        StyleCategory::Author | StyleCategory::AuthorDate | StyleCategory::Note => false,
    }
}
