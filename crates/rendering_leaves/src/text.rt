//! Text nodes.

ghost use Rattle.std.specs.Prelude.{◌≡◌, ◌&&◌, ◌∷◌, [], not, None, OnOk};
ghost use Rattle.std.specs.Char.{is_whitespace};
ghost use Rattle.std.specs.List.{list_any};
ghost use Rattle.std.specs.Option.{option_map};
ghost use Rattle.std.specs.Str.{chars};
ghost use Rattle.laws.specs.Text.{spelled};
ghost use Rattle.rendering_context.specs.Views.{answer_if, context_view};
ghost use Rattle.rendering_entries.specs.Answers.{Answers};
ghost use Rattle.rendering_leaves.specs.Parts.{after_text, before_text, in_text, labelled};
ghost use Rattle.rendering_leaves.specs.Values.{append_leaf, blank_pieces, is_blank, text_manner};
ghost use Rattle.rendering_leaves.specs.Views.{setting_view};
ghost use Rattle.rendering_page.specs.Pieces.{append_pieces, normal};
ghost use Rattle.rendering_page.specs.Views.{quotes_view, manner_view};
ghost use Rattle.rendering_style.specs.Nodes as nodes;
ghost use Rattle.rendering_style.specs.Views.{text_look_view};

use crate::entry_identifiers::{append_identified, append_label_suffix};
use crate::links::{before_link, frame_before, linked_answer};
use crate::node_frame::text_manner;
use crate::node_setting::NodeSetting;
use crate::quoted::{are_inner, requoted};
use crate::quotes::{append_after, append_before};
use crate::state::State;
use crate::suppression::after_variable;
use rendering_context::{Answer, Context};
use rendering_entries::EntryLike;
use rendering_page::{Manner, Page, uncased};
use rendering_style::TextLook;
use rendering_taxonomy::{LongShortForm, NumberForm, Term, TermForm, Variable};
use rendering_tree::ElemMeta;
use std::alloc::AllocError;
use texts::has_text;

/// Appends a text node of a variable: its answer in quotes or not, with the year suffix after a label.
///
/// # Errors
/// Out of memory.
pub fn push_variable<'a, E: EntryLike>(
    context: &Context<'_, 'a>,
    entry: &'a E,
    setting: &NodeSetting<'a>,
    variable: Variable,
    form: LongShortForm,
    look: &'a TextLook,
    state: &mut State<'a>,
) -> Result<(), AllocError>
    ensures { OnOk result (state.new
        ≡ append_leaf (context_view (E.answers entry.now) context.now) (setting_view setting.now)
        (nodes.text (nodes.of_variable variable form) (text_look_view look.now)) state.old) }
{
    let answer = context.text_answer(entry, &state.suppressed, form, variable)?;
    let inner = are_inner(look.quotes, setting.inside_quotes);
    let printed = requoted(context, inner, answer)?;
    let before = before_link(context.is_published, look, &printed);
    let linked = linked_answer(before, printed)?;
    append_variable(
        context,
        setting,
        variable,
        before,
        look,
        linked,
        &mut state.page,
    )?;
    after_variable(context, setting, variable, state)
}

/// Appends a text node of a term, in a form, for one or for more than one.
///
/// # Errors
/// Out of memory.
pub fn push_term<'a>(
    context: &Context<'_, 'a>,
    setting: &NodeSetting<'a>,
    term: Term,
    form: TermForm,
    plural: bool,
    look: &'a TextLook,
    state: &mut State<'a>,
) -> Result<(), AllocError>
    ensures { (a : Answers) → OnOk result (state.new
        ≡ append_leaf (context_view a context.now) (setting_view setting.now)
        (nodes.text (nodes.of_term term form plural) (text_look_view look.now)) state.old) }
{
    let text = context.locales.term_text(term, form, plural);
    append_text(context, setting, text, look, &mut state.page)
}

/// Appends a text node of a text of the style's own.
///
/// # Errors
/// Out of memory.
pub fn push_value<'a>(
    context: &Context<'_, 'a>,
    setting: &NodeSetting<'a>,
    value: &'a str,
    look: &'a TextLook,
    state: &mut State<'a>,
) -> Result<(), AllocError>
    ensures { (a : Answers) → OnOk result (state.new
        ≡ append_leaf (context_view a context.now) (setting_view setting.now)
        (nodes.text (nodes.of_value (chars value.now)) (text_look_view look.now)) state.old) }
{
    if is_printed_blank(context.is_published, value) {
        return append_blank(context, setting, value, look, &mut state.page);
    }
    append_text(context, setting, value, look, &mut state.page)
}

/// Whether a text is white space alone, and some, which a published style prints.
fn is_printed_blank(is_published: bool, text: &str) -> bool
    ensures { result ≡ is_published && is_blank (chars text.now) }
{
    is_published && (has_text(text) && !prints_words(text))
}

/// Whether a text is more than white space.
fn prints_words(text: &str) -> bool
    ensures { result ≡ list_any (λ c. not (is_whitespace c)) (chars text.now) }
{
    text.chars().any(|c| !c.is_whitespace())
}

/// Appends a text of white space alone, with the affixes of its node.
fn append_blank<'a>(
    context: &Context<'_, 'a>,
    setting: &NodeSetting<'a>,
    text: &'a str,
    look: &'a TextLook,
    page: &mut Page<'a>,
) -> Result<(), AllocError>
    ensures { OnOk result (page.new ≡ append_pieces (quotes_view context.now.quotes.now)
        (blank_pieces (setting_view setting.now) (text_look_view look.now) (chars text.now))
        page.old) }
{
    let around = uncased(setting.manner);
    page.push_text(context.quotes, around, look.look.prefix.as_str())?;
    page.push_text(context.quotes, text_manner(setting.manner, look), text)?;
    page.push_text(context.quotes, around, look.look.suffix.as_str())
}

fn append_variable<'a>(
    context: &Context<'_, 'a>,
    setting: &NodeSetting<'a>,
    variable: Variable,
    before: Option<&'a str>,
    look: &'a TextLook,
    answer: Option<Answer<'a>>,
    page: &mut Page<'a>,
) -> Result<(), AllocError>
    ensures { (a : Answers)
        → OnOk result (page.new ≡ append_pieces (quotes_view context.now.quotes.now)
        (in_text (context_view a context.now) (setting_view setting.now)
        (option_map spelled before.entry) (text_look_view look.now)
        (labelled (context_view a context.now) (text_manner (manner_view setting.now.manner)
        (text_look_view look.now)) variable (answer_if answer.entry))) page.old) }
{
    let manner = text_manner(setting.manner, look);
    append_before_text(context, setting, before, look, page)?;
    append_labelled(context, manner, variable, answer, page)?;
    append_after_text(context, setting, before, look, page)
}

/// Appends the answer to a variable, with the year suffix after a label.
fn append_labelled<'a>(
    context: &Context<'_, 'a>,
    manner: Manner,
    variable: Variable,
    answer: Option<Answer<'a>>,
    page: &mut Page<'a>,
) -> Result<(), AllocError>
    ensures { (a : Answers) → OnOk result (page.new
        ≡ append_pieces (quotes_view context.now.quotes.now) (labelled (context_view a context.now)
        (manner_view manner) variable (answer_if answer.entry)) page.old) }
{
    append_identified(context, manner, variable, NumberForm::Numeric, answer, page)?;
    append_label_suffix(context, manner, variable, page)
}

fn append_text<'a>(
    context: &Context<'_, 'a>,
    setting: &NodeSetting<'a>,
    text: &'a str,
    look: &'a TextLook,
    page: &mut Page<'a>,
) -> Result<(), AllocError>
    ensures { (a : Answers)
        → OnOk result (page.new ≡ append_pieces (quotes_view context.now.quotes.now)
        (in_text (context_view a context.now) (setting_view setting.now) None
        (text_look_view look.now)
        (normal (text_manner (manner_view setting.now.manner) (text_look_view look.now))
        (chars text.now) ∷ [])) page.old) }
{
    let manner = text_manner(setting.manner, look);
    append_before_text(context, setting, None, look, page)?;
    page.push_text(context.quotes, manner, text)?;
    append_after_text(context, setting, None, look, page)
}

/// Begins the element of a text node, with its quote. `before` is what of its prefix stands before a link that holds the rest.
fn append_before_text<'a>(
    context: &Context<'_, 'a>,
    setting: &NodeSetting<'a>,
    before: Option<&'a str>,
    look: &'a TextLook,
    page: &mut Page<'a>,
) -> Result<(), AllocError>
    ensures { (a : Answers) → OnOk result (page.new ≡ append_pieces
        (quotes_view context.now.quotes.now) (before_text (context_view a context.now)
        (setting_view setting.now) (option_map spelled before.entry) (text_look_view look.now))
        page.old) }
{
    let frame = frame_before(setting.manner, before, &look.look);
    let manner = text_manner(setting.manner, look);
    page.begin_element(&frame, ElemMeta::Text)?;
    append_before(context, manner, look.quotes, setting.inside_quotes, page)
}

/// Ends the element of a text node, with its quote.
fn append_after_text<'a>(
    context: &Context<'_, 'a>,
    setting: &NodeSetting<'a>,
    before: Option<&'a str>,
    look: &'a TextLook,
    page: &mut Page<'a>,
) -> Result<(), AllocError>
    ensures { (a : Answers) → OnOk result (page.new ≡ append_pieces
        (quotes_view context.now.quotes.now) (after_text (context_view a context.now)
        (setting_view setting.now) (option_map spelled before.entry) (text_look_view look.now))
        page.old) }
{
    let frame = frame_before(setting.manner, before, &look.look);
    let manner = text_manner(setting.manner, look);
    append_after(context, manner, look.quotes, setting.inside_quotes, page)?;
    page.end_element(context.quotes, &frame)?;
    Ok(())
}
