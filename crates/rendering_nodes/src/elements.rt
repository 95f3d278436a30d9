//! Where elements begin and end, and what stands between nodes.

ghost use Rattle.std.specs.Prelude.{◌≡◌, [], None, is_some, if◌then◌else◌, OnOk};
ghost use Rattle.std.specs.Option.{unwrap_or};
ghost use Rattle.laws.specs.Text.{spelled};
ghost use Rattle.rendering_entries.specs.Answers.{Answers};
ghost use Rattle.rendering_leaves.specs.Values.{frame, quote_after, quote_before, text_manner};
ghost use Rattle.rendering_leaves.specs.Views.{setting_view};
ghost use Rattle.rendering_names.specs.Names.{names_frame};
ghost use Rattle.rendering_names.specs.Views.{names_parts_view};
ghost use Rattle.rendering_nodes.specs.Content.{bare, delimited, delimited_frame, delimits_printed, entered, group_frame, left, look_in, macro_frame, tried};
ghost use Rattle.rendering_nodes.specs.Views.{walk_context};
ghost use Rattle.rendering_page.specs.Views.{frame_view};
ghost use Rattle.rendering_style.specs.Views.{group_node_view, look_view, text_look_view};

use crate::style_walk::Walk;
use rendering_leaves::{
    NodeSetting, SpecialForm, State, frame_of, push_quote_after, push_quote_before, text_manner,
};
use rendering_names::{NamesParts, names_frame};
use rendering_page::Frame;
use rendering_style::{Group, Look, TextLook};
use rendering_tree::ElemMeta;
use std::alloc::AllocError;
use texts::no_text;

impl<'a> Walk<'_, 'a> {
    /// Appends what stands between the children of the group around, before all but the first.
    pub(crate) fn push_delimiter(
        &self,
        setting: &NodeSetting<'a>,
        is_first: bool,
        state: &mut State<'a>,
    ) -> Result<(), AllocError>
        ensures { (a : Answers) → OnOk result (state.new
            ≡ delimited (walk_context a self.now) (setting_view setting.now) is_first state.old) }
    {
        match (is_first, setting.delimiter) {
            (false, Some(delimiter)) => {
                state
                    .page
                    .push_text(self.context.quotes, setting.manner, delimiter)
            }
            (true, _) | (false, None) => Ok(()),
        }
    }

    /// Begins the element of a macro, with the quote before it where it stands in quotes.
    pub(crate) fn begin_macro(
        &self,
        setting: &NodeSetting<'a>,
        look: &'a TextLook,
        state: &mut State<'a>,
    ) -> Result<(), AllocError>
        ensures { (a : Answers) → OnOk result (state.new ≡ entered (walk_context a self.now)
            (macro_frame (setting_view setting.now) (text_look_view look.now))
            (quote_before (walk_context a self.now) (text_manner (setting_view setting.now).manner
            (text_look_view look.now)) look.now.quotes setting.now.inside_quotes) state.old) }
    {
        let frame = frame_in(setting, &look.look);
        let manner = text_manner(setting.manner, look);
        state.page.begin_element(&frame, ElemMeta::Text)?;
        push_quote_before(
            &self.context,
            manner,
            look.quotes,
            setting.inside_quotes,
            state,
        )
    }

    /// Ends the element of a macro, with the quote after it.
    pub(crate) fn end_macro(
        &self,
        setting: &NodeSetting<'a>,
        look: &'a TextLook,
        state: &mut State<'a>,
    ) -> Result<(), AllocError>
        ensures { (a : Answers) → OnOk result (state.new ≡ left (walk_context a self.now)
            (macro_frame (setting_view setting.now) (text_look_view look.now))
            (quote_after (walk_context a self.now) (text_manner (setting_view setting.now).manner
            (text_look_view look.now)) look.now.quotes setting.now.inside_quotes) state.old) }
    {
        let frame = frame_in(setting, &look.look);
        let manner = text_manner(setting.manner, look);
        push_quote_after(
            &self.context,
            manner,
            look.quotes,
            setting.inside_quotes,
            state,
        )?;
        state.page.end_element(self.context.quotes, &frame)
    }

    /// Begins the element of a group.
    pub(crate) fn begin_group(
        &self,
        setting: &NodeSetting<'a>,
        group: &'a Group,
        state: &mut State<'a>,
    ) -> Result<(), AllocError>
        ensures { (a : Answers) → OnOk result (state.new ≡ entered (walk_context a self.now)
            (group_frame (setting_view setting.now) (group_node_view group.now)) [] state.old) }
    {
        let frame = frame_in(setting, &group.look);
        state.page.begin(&frame)
    }

    /// Ends the element of a group.
    pub(crate) fn end_group(
        &self,
        setting: &NodeSetting<'a>,
        group: &'a Group,
        state: &mut State<'a>,
    ) -> Result<(), AllocError>
        ensures { (a : Answers) → OnOk result (state.new ≡ left (walk_context a self.now)
            (group_frame (setting_view setting.now) (group_node_view group.now)) [] state.old) }
    {
        let frame = frame_in(setting, &group.look);
        state.page.end(self.context.quotes, &frame)
    }

    /// Begins the element of names with a substitute.
    pub(crate) fn begin_names(
        &self,
        setting: &NodeSetting<'a>,
        names: &NamesParts<'a>,
        state: &mut State<'a>,
    ) -> Result<(), AllocError>
        ensures { (a : Answers) → OnOk result (state.new ≡ entered (walk_context a self.now)
            (names_frame (setting_view setting.now).manner (names_parts_view names.now) [])
            [] state.old) }
    {
        let frame = names_frame(setting.manner, names);
        let meta = ElemMeta::Names(Vec::new(self.context.alloc));
        state.page.begin_element(&frame, meta)
    }

    /// Ends the element of names with a substitute.
    pub(crate) fn end_names(
        &self,
        setting: &NodeSetting<'a>,
        names: &NamesParts<'a>,
        state: &mut State<'a>,
    ) -> Result<(), AllocError>
        ensures { (a : Answers) → OnOk result (state.new ≡ left (walk_context a self.now)
            (names_frame (setting_view setting.now).manner (names_parts_view names.now) [])
            [] state.old) }
    {
        let frame = names_frame(setting.manner, names);
        state.page.end_element(self.context.quotes, &frame)
    }

    /// Begins an element that is removed if it prints nothing.
    pub(crate) fn begin_bare(
        &self,
        setting: &NodeSetting<'a>,
        state: &mut State<'a>,
    ) -> Result<(), AllocError>
        ensures { (a : Answers) → OnOk result (state.new
            ≡ tried (walk_context a self.now) (setting_view setting.now) state.old) }
    {
        state.page.begin(&bare(setting))
    }

    /// Ends that element, which has printed something.
    pub(crate) fn end_bare(
        &self,
        setting: &NodeSetting<'a>,
        state: &mut State<'a>,
    ) -> Result<(), AllocError>
        ensures { (a : Answers) → OnOk result (state.new
            ≡ left (walk_context a self.now) (bare (setting_view setting.now)) [] state.old) }
    {
        state.page.end(self.context.quotes, &bare(setting))
    }

    /// Begins the element round a node, with the delimiter before it.
    pub(crate) fn begin_delimited(
        &self,
        frame: &Frame<'a>,
        state: &mut State<'a>,
    ) -> Result<(), AllocError>
        ensures { (a : Answers) → OnOk result (state.new
            ≡ entered (walk_context a self.now) (frame_view frame.now) [] state.old) }
    {
        state.page.begin(frame)
    }

    /// Ends that element; it is removed if the node prints nothing.
    pub(crate) fn end_delimited(
        &self,
        frame: &Frame<'a>,
        state: &mut State<'a>,
    ) -> Result<(), AllocError>
        ensures { (a : Answers) → OnOk result (state.new
            ≡ left (walk_context a self.now) (frame_view frame.now) [] state.old) }
    {
        state.page.end(self.context.quotes, frame)
    }
}

/// The element of a node with that look, whatever it stands for. Where names stand alone it has no affixes.
fn frame_in<'a>(setting: &NodeSetting<'a>, look: &'a Look) -> Frame<'a>
    ensures { frame_view result ≡ frame (setting_view setting.now).manner None
        (look_in (setting_view setting.now).form (look_view look.now)) }
{
    match setting.form {
        SpecialForm::AuthorsAlone(_) => Frame {
            display: look.display,
            ..bare(setting)
        },
        _ => frame_of(setting.manner, look),
    }
}

/// Whether delimiters stand between nodes that print something, and not between all that are admitted.
pub(crate) fn delimits_printed(setting: &NodeSetting<'_>, state: &State<'_>) -> bool
    ensures { result ≡ delimits_printed (setting_view setting.now) state.now }
{
    state.is_published && has_delimiter(setting)
}

/// Whether the group around has a delimiter.
fn has_delimiter(setting: &NodeSetting<'_>) -> bool
    ensures { result ≡ is_some (setting_view setting.now).delimiter }
{
    match setting.delimiter {
        Some(_) => true,
        None => false,
    }
}

/// The element round a node, with the delimiter of the group around before it, if something was printed there.
pub(crate) fn delimited_frame<'a>(setting: &NodeSetting<'a>, state: &State<'a>) -> Frame<'a>
    ensures { frame_view result ≡ delimited_frame (setting_view setting.now) state.now }
{
    Frame {
        prefix: delimiter_if(state.page.has_printed(), setting),
        ..bare(setting)
    }
}

/// The delimiter of the group around, where it is wanted.
fn delimiter_if<'a>(wanted: bool, setting: &NodeSetting<'a>) -> &'a str
    ensures { spelled result
        ≡ (if wanted then unwrap_or (setting_view setting.now).delimiter [] else []) }
{
    match (wanted, setting.delimiter) {
        (true, Some(delimiter)) => delimiter,
        (true, None) | (false, _) => no_text(),
    }
}

/// An element without display, meta and affixes.
fn bare<'a>(setting: &NodeSetting<'a>) -> Frame<'a>
    ensures { frame_view result ≡ bare (setting_view setting.now) }
{
    Frame {
        display: None,
        meta: None,
        manner: setting.manner,
        prefix: no_text(),
        suffix: no_text(),
    }
}
