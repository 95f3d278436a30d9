//! A page, and what is handed down to what is appended to it.

ghost use Rattle.std.specs.Prelude.{◌≡◌, [], map, IfOk, OnOk};
ghost use Rattle.std.specs.Str.{chars};
ghost use Rattle.laws.specs.Text.{characters};
ghost use Rattle.literature_values.specs.TextViews.{chunks_view as chunks_of};
ghost use Rattle.rendering_leaves.specs.NodeSettings.{begun};
ghost use Rattle.rendering_leaves.specs.Views.{setting_view};
ghost use Rattle.rendering_names.specs.Around.{not_overriding};
ghost use Rattle.rendering_names.specs.Views.{names_around_view, resolved_options_view};
ghost use Rattle.rendering_page.specs.Pages.{append_normal, append_token};
ghost use Rattle.rendering_page.specs.Pieces.{append_pieces, chunk_pieces};
ghost use Rattle.rendering_page.specs.Views.{quotes_view};
ghost use Rattle.rendering_nodes.specs.Views.{macros_of, survey_view, walk_context};
ghost use Rattle.rendering_style.specs.Opening.{opened_nodes};
ghost use Rattle.rendering_style.specs.Options.{open_options};
ghost use Rattle.rendering_style.specs.Views.{node_view, options_view};
ghost use Rattle.rendering_tree.specs.Tokens.{link, transparent};
ghost use Rattle.rendering_tree.specs.Trees.{tree_of};
ghost use Rattle.rendering_tree.specs.Views.{tree_view};
ghost use Rattle.rendering_writing.specs.Writing.{further_options, nodes_asked, nodes_rendered, options_popped, options_pushed, setting_begun, space_ensured, with_page};

use literature_values::ChunkedString;
use rendering_building::into_tree;
use rendering_entries::EntryLike;
use rendering_leaves::{NodeSetting, SpecialForm, State};
use rendering_names::{NamesAround, ResolvedNameOptions};
use rendering_nodes::{Survey, Walk};
use rendering_page::plain_manner;
use rendering_style::{NameOptions, Node};
use rendering_tree::ElemChildren;
use std::alloc::{AllocError, Global};
use std::marker::Model;

/// A page, and what is handed down to what is appended to it. After an error nothing is known of what stands on the page.
pub struct WritingContext<'a> {
    state: State<'a>,
    setting: NodeSetting<'a>,
    options_around: Vec<NamesAround<'a>>,
}

impl Drop for WritingContext<'_> {
    fn drop(self) {
        let WritingContext {
            state: _,
            setting: _,
            options_around: _,
        } = self;
    }
}

impl<'a> Model for WritingContext<'a> {
    ghost use Rattle.std.specs.Prelude.{map, reverse};
    ghost use Rattle.rendering_leaves.specs.Views.{setting_view};
    ghost use Rattle.rendering_names.specs.Views.{names_around_view};
    ghost use Rattle.rendering_writing.specs.Writing as writings;

    ghost Value = { writings.Writing };

    ghost view = { λ w. record { state = w.state; setting = setting_view w.setting; options_around = reverse (map names_around_view w.options_around.items) } };
}

impl<'a> WritingContext<'a> {
    /// A page to which nothing was appended. Texts have the default formatting, and nothing is specified for names.
    pub fn new(alloc: Global) -> WritingContext<'a>
        ensures { result ≡ record { state = begun; setting = setting_begun; options_around = [] } }
    {
        WritingContext::with_setting(alloc, plain_setting())
    }

    /// A page to which nothing was appended, with what is handed down.
    pub fn with_setting(alloc: Global, setting: NodeSetting<'a>) -> WritingContext<'a>
        ensures { result
            ≡ record { state = begun; setting = setting_view setting.entry; options_around = [] } }
    {
        WritingContext {
            state: State::new(alloc),
            setting,
            options_around: Vec::new(alloc),
        }
    }

    /// Lets these options for names take precedence over those that are in force, until they are taken back.
    ///
    /// # Errors
    /// Out of memory.
    pub fn push_name_options(&mut self, options: &'a NameOptions) -> Result<(), AllocError>
        ensures { OnOk result (self.new ≡ options_pushed (options_view options.now) self.old) }
    {
        let around = self.setting.options;
        self.options_around.push(around)?;
        self.setting.options = further(options, &around);
        Ok(())
    }

    /// Takes back the options for names that were pushed last. Where none were pushed, nothing changes.
    pub fn pop_name_options(&mut self)
        ensures { self.new ≡ options_popped self.old }
    {
        if let Some(options) = self.options_around.pop() {
            self.setting.options = options;
        }
    }

    /// Appends a space. Nothing is appended where the page is empty, or where the last text ends in a space.
    ///
    /// # Errors
    /// Out of memory.
    pub fn ensure_space(&mut self) -> Result<(), AllocError>
        ensures { OnOk result (self.new ≡ space_ensured self.old) }
    {
        self.state.page.ensure_space()
    }

    /// The tree of what was appended.
    ///
    /// # Errors
    /// Out of memory.
    pub fn into_tree(self) -> Result<ElemChildren, AllocError>
        ensures { IfOk result (λ t. tree_view t ≡ tree_of self.entry.state.page.tokens) }
    {
        let WritingContext {
            state,
            setting: _,
            options_around: _,
        } = self;
        tree_on(state)
    }

    /// Appends nodes, each that is admitted.
    pub(crate) fn push_nodes<E: EntryLike>(
        &mut self,
        walk: &Walk<'_, 'a>,
        entry: &'a E,
        nodes: &'a [Node],
    ) -> Result<(), AllocError>
        ensures { OnOk result (self.new
            ≡ nodes_rendered (walk_context (E.answers entry.now) walk.now)
            (opened_nodes (macros_of walk.now) (map node_view nodes.now)) self.old) }
    {
        let setting = self.setting;
        walk.push_nodes(entry, &setting, nodes, &mut self.state)
    }

    /// What is asked of nodes before they are appended.
    pub(crate) fn survey<E: EntryLike>(
        &self,
        walk: &Walk<'_, 'a>,
        entry: &'a E,
        nodes: &'a [Node],
    ) -> Result<Survey, AllocError>
        ensures { IfOk result (λ v. survey_view v
            ≡ nodes_asked (walk_context (E.answers entry.now) walk.now)
            (opened_nodes (macros_of walk.now) (map node_view nodes.now)) self.now) }
    {
        walk.survey(entry, self.setting.form, nodes, &self.state)
    }

    /// Appends an ordinary text.
    pub(crate) fn push_made(&mut self, quotes: &[&str], text: String) -> Result<(), AllocError>
        ensures { OnOk result (self.new ≡ with_page (append_normal (quotes_view quotes.now)
            self.old.setting.manner (characters text) self.old.state.page) self.old) }
    {
        let manner = self.setting.manner;
        self.state.page.push_made(quotes, manner, text)
    }

    /// Appends a text in pieces.
    pub(crate) fn push_chunks(
        &mut self,
        quotes: &[&str],
        text: &'a ChunkedString,
    ) -> Result<(), AllocError>
        ensures { OnOk result (self.new ≡ with_page (append_pieces (quotes_view quotes.now)
            (chunk_pieces self.old.setting.manner (chunks_of text.now)) self.old.state.page)
            self.old) }
    {
        let manner = self.setting.manner;
        self.state
            .page
            .push_chunks(quotes, manner, text.0.as_slice())
    }

    pub(crate) fn push_link(&mut self, text: &'a str, url: &'a str) -> Result<(), AllocError>
        ensures { OnOk result (self.new ≡ with_page
            (append_token (link self.old.setting.manner.formatting (chars text.now) (chars url.now))
            self.old.state.page) self.old) }
    {
        let formatting = self.setting.manner.formatting;
        self.state.page.push_link(formatting, text, url)
    }

    /// Appends a locator of the caller's own.
    pub(crate) fn push_transparent(&mut self, cite_idx: usize) -> Result<(), AllocError>
        ensures { OnOk result (self.new
            ≡ with_page (append_token (transparent self.old.setting.manner.formatting cite_idx)
            self.old.state.page) self.old) }
    {
        let formatting = self.setting.manner.formatting;
        self.state.page.push_transparent(formatting, cite_idx)
    }
}

/// The tree of what a call appended.
fn tree_on(state: State<'_>) -> Result<ElemChildren, AllocError>
    ensures { IfOk result (λ t. tree_view t ≡ tree_of state.entry.page.tokens) }
{
    into_tree(state.page)
}

/// What is handed down where nothing was specified.
fn plain_setting<'a>() -> NodeSetting<'a>
    ensures { setting_view result ≡ setting_begun }
{
    NodeSetting {
        manner: plain_manner(),
        inside_quotes: false,
        delimiter: None,
        options: nothing_around(),
        in_substitute: false,
        form: SpecialForm::Whole,
        outer_names: None,
    }
}

/// Further options for names over those that are said.
fn further<'a>(options: &'a NameOptions, around: &NamesAround<'a>) -> NamesAround<'a>
    ensures { names_around_view result
        ≡ further_options (options_view options.now) (names_around_view around.now) }
{
    NamesAround {
        options: ResolvedNameOptions::new(options).over(&around.options),
        overriding: around.overriding,
    }
}

/// Nothing is said of names.
fn nothing_around<'a>() -> NamesAround<'a>
    ensures { names_around_view result ≡ not_overriding open_options }
{
    NamesAround::not_overriding(&open_options())
}

/// Options by which nothing is specified for names.
fn open_options<'a>() -> ResolvedNameOptions<'a>
    ensures { resolved_options_view result ≡ open_options }
{
    ResolvedNameOptions {
        and: None,
        delimiter: None,
        delimiter_precedes_last: None,
        et_al_min: None,
        et_al_use_first: None,
        et_al_subsequent_min: None,
        et_al_subsequent_use_first: None,
        et_al_use_last: None,
        form: None,
        initialize_with: None,
        name_as_sort_order: None,
        sort_separator: None,
        demote_non_dropping_particle: None,
        delimiter_precedes_et_al: None,
        initialize: None,
        initialize_with_hyphen: None,
        splits_initials: None,
        names_delimiter: None,
    }
}
