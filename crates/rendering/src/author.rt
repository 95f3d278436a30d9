//! The authors of an entry alone.

ghost use Rattle.std.specs.Prelude.{◌≡◌, IfOk, OnOk};
ghost use Rattle.std.specs.Option.{option_map};
ghost use Rattle.rendering_context.specs.Views.{cite_properties_view};
ghost use Rattle.rendering_leaves.specs.Views.{form_view};
ghost use Rattle.rendering_style.specs.Views.{bibliography_layout_view};
ghost use Rattle.rendering.specs.Purposes.{author_elsewhere, author_form, author_last, append_author, author_variable};
ghost use Rattle.rendering.specs.Views.{context_in, style_of};

use crate::call::Call;
use crate::layout::is_published;
use rendering_context::{CiteProperties, Context};
use rendering_entries::EntryLike;
use rendering_leaves::{SpecialForm, State};
use rendering_nodes::Walk;
use rendering_style::Bibliography;
use rendering_taxonomy::{IbidState, NameVariable, Variable};
use std::alloc::AllocError;

impl<'s, 'a> Call<'s, 'a> {
    /// Appends the authors: from the layout of the citation where they are admitted there, else from it as it stands after a
    /// cite of another entry, else from the layout of the bibliography, else from a node of their own.
    pub(crate) fn push_author<E: EntryLike>(
        &self,
        entry: &'a E,
        state: &mut State<'a>,
    ) -> Result<(), AllocError>
        ensures { OnOk result (state.new ≡ append_author (style_of self.now)
            (context_in (E.answers entry.entry.now) self.now) state.old) }
    {
        let form = self.author_form(entry)?;
        if self.admits_citation(entry, form, state)? {
            self.push_citation(entry, form, state)
        } else {
            self.push_author_elsewhere(entry, form, state)
        }
    }

    /// The form of the authors alone, in a published style without the affixes of nodes round them.
    fn author_form<E: EntryLike>(&self, entry: &'a E) -> Result<SpecialForm, AllocError>
        ensures { IfOk result (λ f. form_view f ≡ author_form (style_of self.now)
            (context_in (E.answers entry.entry.now) self.now)) }
    {
        let variable = self.author_variable(entry)?;
        if is_published(self.walk.style) {
            return Ok(SpecialForm::AuthorsAlone(variable));
        }
        Ok(SpecialForm::AuthorOnly(variable))
    }

    /// The variable whose people are the authors: the editors stand for authors that are missing.
    pub(crate) fn author_variable<E: EntryLike>(
        &self,
        entry: &'a E,
    ) -> Result<NameVariable, AllocError>
        ensures { IfOk result (λ v. v
            ≡ author_variable (context_in (E.answers entry.entry.now) self.now)) }
    {
        let context = self.walk.context;
        if context.has_answer(entry, Variable::Name(NameVariable::Author))? {
            return Ok(NameVariable::Author);
        }
        if context.has_answer(entry, Variable::Name(NameVariable::Editor))? {
            return Ok(NameVariable::Editor);
        }
        Ok(NameVariable::Author)
    }

    /// Appends the authors from the layout of the citation as it stands after a cite of another entry, where they are admitted
    /// there, else from what comes next.
    fn push_author_elsewhere<E: EntryLike>(
        &self,
        entry: &'a E,
        form: SpecialForm,
        state: &mut State<'a>,
    ) -> Result<(), AllocError>
        ensures { OnOk result (state.new ≡ author_elsewhere (style_of self.now)
            (context_in (E.answers entry.entry.now) self.now) (form_view form) state.old) }
    {
        let properties = self.walk.context.properties.elsewhere()?;
        self.push_author_after(entry, form, &properties, state)
    }

    /// Appends the authors from the layout of the citation, given what is known of the cite after a cite of another entry, where they are
    /// admitted there, else from what comes next.
    fn push_author_after<E: EntryLike>(
        &self,
        entry: &'a E,
        form: SpecialForm,
        properties: &CiteProperties<'a>,
        state: &mut State<'a>,
    ) -> Result<(), AllocError>
        requires { cite_properties_view properties.now
            ≡ record (cite_properties_view self.now.walk.context.properties.now)
            { ibid = IbidState.Different } }
        ensures { OnOk result (state.new ≡ author_elsewhere (style_of self.now)
            (context_in (E.answers entry.entry.now) self.now) (form_view form) state.old) }
    {
        let context = Context {
            properties,
            ..self.walk.context
        };
        let walk = Walk {
            context,
            style: self.walk.style,
        };
        let call = Call {
            walk,
            authors: self.authors,
            options: self.options,
        };
        if call.admits_citation(entry, form, state)? {
            call.push_citation(entry, form, state)
        } else {
            self.push_author_last(entry, form, state)
        }
    }

    /// Appends the authors from the layout of the bibliography, else from a node of their own.
    fn push_author_last<E: EntryLike>(
        &self,
        entry: &'a E,
        form: SpecialForm,
        state: &mut State<'a>,
    ) -> Result<(), AllocError>
        ensures { OnOk result (state.new
            ≡ author_last (style_of self.now) (context_in (E.answers entry.entry.now) self.now)
            (form_view form) (style_of self.now).bibliography state.old) }
    {
        match &self.walk.style.parts().bibliography {
            Some(bibliography) => self.push_author_listed(entry, form, bibliography, state),
            None => self.push_made(entry, form, state),
        }
    }

    /// Appends the authors from this layout of the bibliography where they are admitted there, else from a node of their own.
    fn push_author_listed<E: EntryLike>(
        &self,
        entry: &'a E,
        form: SpecialForm,
        bibliography: &'a Bibliography,
        state: &mut State<'a>,
    ) -> Result<(), AllocError>
        ensures { OnOk result (state.new
            ≡ author_last (style_of self.now) (context_in (E.answers entry.entry.now) self.now)
            (form_view form) (Some (bibliography_layout_view bibliography.now)) state.old) }
    {
        if self.admits(entry, &bibliography.layout, form, state)? {
            self.push_bibliography(entry, form, bibliography, state)
        } else {
            self.push_made(entry, form, state)
        }
    }
}
