//! What a call gives by its purpose.

ghost use Rattle.std.specs.Prelude.{◌≡◌, IfOk, OnOk, Some, None};
ghost use Rattle.rendering_leaves.specs.Views.{form_view};
ghost use Rattle.rendering_style.specs.Views.{bibliography_layout_view};
ghost use Rattle.rendering.specs.Purposes.{begun_in, form_of, full_of, append_item, item_of, rendered_for};
ghost use Rattle.rendering.specs.Views.{context_in, rendering_view, style_of};

use crate::call::Call;
use crate::layout::{has_substitute, is_published, layout_frame};
use crate::rendered::{Rendering, rendered, rendered_aligned, rendered_item};
use rendering_entries::EntryLike;
use rendering_leaves::{SpecialForm, State};
use rendering_page::Page;
use rendering_style::Bibliography;
use rendering_taxonomy::{CitePurpose, CollapseVerdict};
use std::alloc::AllocError;

impl<'s, 'a> Call<'s, 'a> {
    /// A cite by its purpose.
    pub(crate) fn rendered_for<E: EntryLike>(
        &self,
        entry: &'a E,
        verdict: Option<CollapseVerdict>,
        purpose: Option<CitePurpose>,
    ) -> Result<Rendering, AllocError>
        ensures { IfOk result (λ r. rendering_view r ≡ rendered_for (style_of self.now)
            (context_in (E.answers entry.entry.now) self.now) verdict purpose) }
    {
        match purpose {
            None => self.cite(entry, verdict),
            Some(CitePurpose::Author) => self.author(entry),
            Some(CitePurpose::Year) => self.year(entry),
            Some(CitePurpose::Full) => self.full(entry, verdict),
            Some(CitePurpose::Prose) => self.prose(entry),
        }
    }

    pub(crate) fn item<E: EntryLike>(
        &self,
        entry: &'a E,
        bibliography: &'a Bibliography,
    ) -> Result<Rendering, AllocError>
        ensures { IfOk result (λ r. rendering_view r
            ≡ item_of (style_of self.now) (context_in (E.answers entry.entry.now) self.now)
            (bibliography_layout_view bibliography.now)) }
    {
        let mut state = self.begun();
        self.push_item(entry, bibliography, &mut state)?;
        let substitutes = has_substitute(bibliography);
        rendered_item(self.walk.context.quotes, substitutes, state)
    }

    /// What collapsing leaves of a cite.
    fn cite<E: EntryLike>(
        &self,
        entry: &'a E,
        verdict: Option<CollapseVerdict>,
    ) -> Result<Rendering, AllocError>
        ensures { IfOk result (λ r. rendering_view r ≡ rendered_for (style_of self.now)
            (context_in (E.answers entry.entry.now) self.now) verdict None) }
    {
        let mut state = self.begun();
        let form = self.form_of(entry, verdict)?;
        self.push_citation(entry, form, &mut state)?;
        rendered(self.walk.context.quotes, state)
    }

    /// The authors alone.
    fn author<E: EntryLike>(&self, entry: &'a E) -> Result<Rendering, AllocError>
        ensures { IfOk result (λ r. rendering_view r ≡ rendered_for (style_of self.now)
            (context_in (E.answers entry.entry.now) self.now) None (Some CitePurpose.Author)) }
    {
        let mut state = self.begun();
        self.push_author(entry, &mut state)?;
        rendered(self.walk.context.quotes, state)
    }

    /// The year alone.
    fn year<E: EntryLike>(&self, entry: &'a E) -> Result<Rendering, AllocError>
        ensures { IfOk result (λ r. rendering_view r ≡ rendered_for (style_of self.now)
            (context_in (E.answers entry.entry.now) self.now) None (Some CitePurpose.Year)) }
    {
        let mut state = self.begun();
        self.push_year(entry, &mut state)?;
        rendered(self.walk.context.quotes, state)
    }

    /// The whole item; without a bibliography what is printed for no purpose.
    fn full<E: EntryLike>(
        &self,
        entry: &'a E,
        verdict: Option<CollapseVerdict>,
    ) -> Result<Rendering, AllocError>
        ensures { IfOk result (λ r. rendering_view r
            ≡ full_of (style_of self.now) (context_in (E.answers entry.entry.now) self.now) verdict
            (style_of self.now).bibliography) }
    {
        match &self.walk.style.parts().bibliography {
            Some(bibliography) => self.listed(entry, bibliography),
            None => self.cite(entry, verdict),
        }
    }

    /// The whole item by the layout of a bibliography, without its affixes.
    fn listed<E: EntryLike>(
        &self,
        entry: &'a E,
        bibliography: &'a Bibliography,
    ) -> Result<Rendering, AllocError>
        ensures { IfOk result (λ r. rendering_view r
            ≡ full_of (style_of self.now) (context_in (E.answers entry.entry.now) self.now) None
            (Some (bibliography_layout_view bibliography.now))) }
    {
        let mut state = self.begun();
        self.push_bibliography(entry, SpecialForm::Whole, bibliography, &mut state)?;
        let align = bibliography.second_field_align;
        rendered_aligned(self.walk.context.quotes, align, state)
    }

    /// A cite in the middle of a sentence.
    fn prose<E: EntryLike>(&self, entry: &'a E) -> Result<Rendering, AllocError>
        ensures { IfOk result (λ r. rendering_view r ≡ rendered_for (style_of self.now)
            (context_in (E.answers entry.entry.now) self.now) None (Some CitePurpose.Prose)) }
    {
        let mut state = self.begun();
        self.push_prose(entry, &mut state)?;
        rendered(self.walk.context.quotes, state)
    }

    /// The state before anything was appended, on a page by the style's rule.
    fn begun(&self) -> State<'a>
        ensures { result ≡ begun_in (style_of self.now) }
    {
        let alloc = self.walk.context.alloc;
        let mut state = State::new(alloc);
        state.page = Page::with_rule(alloc, self.walk.style.parts().page_rule);
        state.is_published = is_published(self.walk.style);
        state
    }

    /// Appends an item of the bibliography in the affixes of its layout.
    fn push_item<E: EntryLike>(
        &self,
        entry: &'a E,
        bibliography: &'a Bibliography,
        state: &mut State<'a>,
    ) -> Result<(), AllocError>
        ensures { OnOk result (state.new
            ≡ append_item (style_of self.now) (context_in (E.answers entry.entry.now) self.now)
            (bibliography_layout_view bibliography.now) state.old) }
    {
        let frame = layout_frame(&bibliography.layout);
        state.page.begin(&frame)?;
        self.push_bibliography(entry, SpecialForm::Whole, bibliography, state)?;
        state.page.end(self.walk.context.quotes, &frame)
    }

    /// The form of a cite of which collapsing leaves so much.
    fn form_of<E: EntryLike>(
        &self,
        entry: &'a E,
        verdict: Option<CollapseVerdict>,
    ) -> Result<SpecialForm, AllocError>
        ensures { IfOk result (λ f. form_view f ≡ form_of (style_of self.now)
            (context_in (E.answers entry.entry.now) self.now) verdict) }
    {
        match verdict {
            None => Ok(SpecialForm::Whole),
            Some(CollapseVerdict::First) => self.later_form(entry),
            Some(CollapseVerdict::YearSuffix) => Ok(SpecialForm::SuffixOnly),
        }
    }

    /// The form of a later cite where years are collapsed: all but the authors, or in a style that is not published the first date.
    fn later_form<E: EntryLike>(&self, entry: &'a E) -> Result<SpecialForm, AllocError>
        ensures { IfOk result (λ f. form_view f ≡ form_of (style_of self.now)
            (context_in (E.answers entry.entry.now) self.now) (Some CollapseVerdict.First)) }
    {
        if is_published(self.walk.style) {
            let variable = self.author_variable(entry)?;
            return Ok(SpecialForm::WithoutNames(variable));
        }
        Ok(SpecialForm::FirstDateOnly)
    }
}
