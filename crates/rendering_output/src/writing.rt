//! Tags and texts in plain text and in HTML, written one after the other.

ghost use Rattle.std.specs.Prelude.{◌≡◌, ◌∷◌, [], ◌||◌, true, if◌then◌else◌};
ghost use Rattle.std.specs.Str.{chars};
ghost use Rattle.laws.specs.Characters.{space};
ghost use Rattle.laws.specs.Runs.{after};
ghost use Rattle.laws.specs.Text.{is_filled};
ghost use Rattle.rendering_taxonomy.specs.Formats.{plain, looks_like};
ghost use Rattle.rendering_output.specs.Writing.{words, span, end_span, anchor, end_anchor, spanned, linked, begun, ended, line_break, has_name, stands_as_it_is, escaped_character, escaped, declared, style_declared, variant_declared, weight_declared, decoration_declared, align_declared, declarations, spaced, spaced_after, html_tag, WritesCharacters, WritesTags, LeavesEscaped};

use crate::TextTarget;
use rendering_taxonomy::{
    Display, FontStyle, FontVariant, FontWeight, Formatting, TextDecoration, VerticalAlign,
};
use texts::{CharacterClass, split_first, split_run};

/// A format that can be written.
#[derive(Clone, Copy, Debug, Default, PartialEq, Eq, Hash)]
pub enum BufWriteFormat {
    /// Text without looks and addresses. A block stands between two line feeds.
    #[default]
    Plain,
    /// HTML: looks are styles of a `span`, elements with a display stand in a `div`, and addresses are those of an `a`.
    Html,
}

impl BufWriteFormat {
    /// Hands a text that looks so to the target.
    pub fn push_text<T: TextTarget>(self, target: &mut T, formatting: Formatting, text: &str)
        ensures { WritesTags T.takes self target.old
            (spanned formatting (chars text.now)) target.new }
    {
        if is_plain(formatting) {
            return self.push_markup(target, text);
        }
        self.push_span(target, formatting);
        self.push_markup(target, text);
        self.push_span_end(target);
    }

    /// Hands a text or a formula without looks to the target.
    pub fn push_markup<T: TextTarget>(self, target: &mut T, text: &str)
        ensures { WritesTags T.takes self target.old (words (chars text.now) ∷ []) target.new }
    {
        match self {
            BufWriteFormat::Plain => target.push_str(text),
            BufWriteFormat::Html => push_escaped(target, text),
        }
    }

    /// Hands a text that looks so and leads to an address to the target.
    pub fn push_link<T: TextTarget>(
        self,
        target: &mut T,
        formatting: Formatting,
        text: &str,
        url: &str,
    )
        ensures { WritesTags T.takes self target.old
            (linked formatting (chars text.now) (chars url.now)) target.new }
    {
        self.push_anchor(target, url);
        self.push_text(target, formatting, text);
        self.push_anchor_end(target);
    }

    /// Hands the start of an element to the target.
    pub fn push_start<T: TextTarget>(self, target: &mut T, display: Option<Display>)
        ensures { WritesTags T.takes self target.old (begun display) target.new }
    {
        match (self, display) {
            (_, None) => {}
            (BufWriteFormat::Plain, Some(display)) => push_break(target, display),
            (BufWriteFormat::Html, Some(_)) => target.push_str("<div>"),
        }
    }

    /// Hands the end of an element to the target.
    pub fn push_end<T: TextTarget>(self, target: &mut T, display: Option<Display>)
        ensures { WritesTags T.takes self target.old (ended display) target.new }
    {
        match (self, display) {
            (_, None) => {}
            (BufWriteFormat::Plain, Some(display)) => push_break(target, display),
            (BufWriteFormat::Html, Some(_)) => target.push_str("</div>"),
        }
    }

    /// Hands over where a text begins that looks so.
    fn push_span<T: TextTarget>(self, target: &mut T, formatting: Formatting)
        ensures { WritesTags T.takes self target.old (span formatting ∷ []) target.new }
    {
        match self {
            BufWriteFormat::Plain => {}
            BufWriteFormat::Html => push_span_tag(target, formatting),
        }
    }

    /// Hands over where a text ends that looks so.
    fn push_span_end<T: TextTarget>(self, target: &mut T)
        ensures { WritesTags T.takes self target.old (end_span ∷ []) target.new }
    {
        match self {
            BufWriteFormat::Plain => {}
            BufWriteFormat::Html => target.push_str("</span>"),
        }
    }

    /// Hands over where a text begins that leads to an address.
    fn push_anchor<T: TextTarget>(self, target: &mut T, url: &str)
        ensures { WritesTags T.takes self target.old (anchor (chars url.now) ∷ []) target.new }
    {
        match self {
            BufWriteFormat::Plain => {}
            BufWriteFormat::Html => push_anchor_tag(target, url),
        }
    }

    /// Hands over where a text ends that leads to an address.
    fn push_anchor_end<T: TextTarget>(self, target: &mut T)
        ensures { WritesTags T.takes self target.old (end_anchor ∷ []) target.new }
    {
        match self {
            BufWriteFormat::Plain => {}
            BufWriteFormat::Html => target.push_str("</a>"),
        }
    }
}

/// Whether characters look as they do where nothing is specified for them.
fn is_plain(formatting: Formatting) -> bool
    ensures { result ≡ looks_like formatting plain }
{
    matches!(formatting.font_style, FontStyle::Normal)
        && matches!(formatting.font_variant, FontVariant::Normal)
        && matches!(formatting.font_weight, FontWeight::Normal)
        && matches!(formatting.text_decoration, TextDecoration::None)
        && matches!(formatting.vertical_align, VerticalAlign::None)
}

/// Hands over the line feed that stands before and after a block.
fn push_break<T: TextTarget>(target: &mut T, display: Display)
    ensures { WritesCharacters T.takes target.old (line_break display) target.new }
{
    match display {
        Display::Block => target.push_str("\n"),
        Display::LeftMargin | Display::RightInline | Display::Indent => {}
    }
}

/// Hands over the tag of HTML before a text that looks so.
fn push_span_tag<T: TextTarget>(target: &mut T, formatting: Formatting)
    ensures { WritesCharacters T.takes target.old (html_tag (span formatting)) target.new }
{
    target.push_str("<span style=\"");
    push_declarations(target, formatting);
    target.push_str("\">");
}

/// Hands over the tag of HTML before a text that leads to an address.
fn push_anchor_tag<T: TextTarget>(target: &mut T, url: &str)
    ensures { WritesCharacters T.takes target.old (html_tag (anchor (chars url.now))) target.new }
{
    target.push_str("<a href=\"");
    push_escaped(target, url);
    target.push_str("\">");
}

/// Hands over a text with four characters by their names.
fn push_escaped<T: TextTarget>(target: &mut T, text: &str)
    ensures { WritesCharacters T.takes target.old (escaped (chars text.now)) target.new }
{
    let mut rest = push_run(target, text);
    while let Some((c, more)) = split_first(rest) {
        target.push_str(name_of(c));
        rest = push_run(target, more);
    }
}

/// Hands over the characters before the first that has a name, in one go, and gives back what follows them.
fn push_run<'t, T: TextTarget>(target: &mut T, text: &'t str) -> &'t str
    ensures written { LeavesEscaped T.takes target.old
        (chars text.now) target.new (chars result.now) }
    ensures rest { chars result.now ≡ after stands_as_it_is (chars text.now) }
{
    let (run, rest) = split_run(text, AsItIs);
    target.push_str(run);
    rest
}

/// The characters that are written as they are in HTML.
#[derive(Clone, Copy)]
struct AsItIs;

impl CharacterClass for AsItIs {
    ghost passes = { λ _ c. stands_as_it_is c };

    fn contains(self, c: char) -> bool {
        !matches!(c, '&' | '<' | '>' | '"')
    }
}

/// The name of a character that is not written as it is.
fn name_of(c: char) -> &'static str
    requires { has_name c ≡ true }
    ensures { result.now ≡ escaped_character c }
{
    match c {
        '&' => "&amp;",
        '<' => "&lt;",
        '>' => "&gt;",
        _ => "&quot;",
    }
}

/// Hands over what is declared for the attributes whose value is not the default.
fn push_declarations<T: TextTarget>(target: &mut T, formatting: Formatting)
    ensures { WritesCharacters T.takes target.old (spaced (declarations formatting)) target.new }
{
    let style = push_declaration(target, false, style_declared(formatting.font_style));
    let variant = push_declaration(target, style, variant_declared(formatting.font_variant));
    let weight = push_declaration(target, variant, weight_declared(formatting.font_weight));
    let decoration = push_declaration(
        target,
        weight,
        decoration_declared(formatting.text_decoration),
    );
    push_declaration(
        target,
        decoration,
        align_declared(formatting.vertical_align),
    );
}

/// Hands over a declaration, where there is one, after others or as the first, and says whether there are any by then.
fn push_declaration<T: TextTarget>(
    target: &mut T,
    is_after: bool,
    declaration: Option<&str>,
) -> bool
    ensures written { WritesCharacters T.takes target.old
        (spaced_after is_after (declared declaration.entry)) target.new }
    ensures any { result ≡ (is_after || is_filled (declared declaration.entry)) }
{
    match declaration {
        None => is_after,
        Some(text) => {
            push_next(target, is_after, text);
            true
        }
    }
}

/// Hands over a declaration after others or as the first.
fn push_next<T: TextTarget>(target: &mut T, is_after: bool, text: &str)
    ensures { WritesCharacters T.takes target.old
        (spaced_after is_after (chars text.now ∷ [])) target.new }
{
    push_space(target, is_after);
    target.push_str(text);
}

/// Hands over the space before a declaration that is not the first.
fn push_space<T: TextTarget>(target: &mut T, is_after: bool)
    ensures { WritesCharacters T.takes target.old (if is_after then space ∷ [] else []) target.new }
{
    if is_after {
        target.push_str(" ");
    }
}

fn style_declared(style: FontStyle) -> Option<&'static str>
    ensures { declared result ≡ style_declared style }
{
    match style {
        FontStyle::Normal => None,
        FontStyle::Italic => Some("font-style: italic;"),
        FontStyle::Oblique => Some("font-style: oblique;"),
    }
}

fn variant_declared(variant: FontVariant) -> Option<&'static str>
    ensures { declared result ≡ variant_declared variant }
{
    match variant {
        FontVariant::Normal => None,
        FontVariant::SmallCaps => Some("font-variant: small-caps;"),
    }
}

fn weight_declared(weight: FontWeight) -> Option<&'static str>
    ensures { declared result ≡ weight_declared weight }
{
    match weight {
        FontWeight::Normal => None,
        FontWeight::Bold => Some("font-weight: bold;"),
        FontWeight::Light => Some("font-weight: lighter;"),
    }
}

fn decoration_declared(decoration: TextDecoration) -> Option<&'static str>
    ensures { declared result ≡ decoration_declared decoration }
{
    match decoration {
        TextDecoration::None => None,
        TextDecoration::Underline => Some("text-decoration: underline;"),
    }
}

/// What is declared for a position on the line.
fn align_declared(align: VerticalAlign) -> Option<&'static str>
    ensures { declared result ≡ align_declared align }
{
    match align {
        VerticalAlign::None => None,
        VerticalAlign::Sup => Some("vertical-align: super;"),
        VerticalAlign::Sub => Some("vertical-align: sub;"),
    }
}
