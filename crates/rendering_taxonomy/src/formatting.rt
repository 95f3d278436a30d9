//! How characters look, and where an element stands.

ghost use Rattle.std.specs.Prelude.{◌≡◌};
ghost use Rattle.rendering_taxonomy.specs.Formats.{changed, plain};
ghost use Rattle.rendering_taxonomy.specs.Views.{changes_view};

/// The style of a font.
#[derive(Clone, Copy, Debug, PartialEq, Eq, Hash)]
pub enum FontStyle {
    Normal,
    Italic,
    Oblique,
}

/// The variant of a font.
#[derive(Clone, Copy, Debug, PartialEq, Eq, Hash)]
pub enum FontVariant {
    Normal,
    SmallCaps,
}

/// The weight of a font.
#[derive(Clone, Copy, Debug, PartialEq, Eq, Hash)]
pub enum FontWeight {
    Normal,
    Bold,
    Light,
}

/// The decoration of a text.
#[derive(Clone, Copy, Debug, PartialEq, Eq, Hash)]
pub enum TextDecoration {
    None,
    Underline,
}

/// Where a text stands on its line.
#[derive(Clone, Copy, Debug, PartialEq, Eq, Hash)]
pub enum VerticalAlign {
    None,
    Sup,
    Sub,
}

/// Where an element stands.
#[derive(Clone, Copy, Debug, PartialEq, Eq, Hash)]
pub enum Display {
    Block,
    LeftMargin,
    RightInline,
    Indent,
}

/// How characters look.
#[derive(Clone, Copy, Debug, PartialEq, Eq, Hash)]
pub struct Formatting {
    pub font_style: FontStyle,
    pub font_variant: FontVariant,
    pub font_weight: FontWeight,
    pub text_decoration: TextDecoration,
    pub vertical_align: VerticalAlign,
}

impl Formatting {
    /// How characters look where nothing is specified for them.
    pub fn plain() -> Formatting
        ensures { result ≡ plain }
    {
        Formatting {
            font_style: FontStyle::Normal,
            font_variant: FontVariant::Normal,
            font_weight: FontWeight::Normal,
            text_decoration: TextDecoration::None,
            vertical_align: VerticalAlign::None,
        }
    }
}

/// What is specified for the look of characters; what is left open stays as it is around.
#[derive(Clone, Copy, Debug, Default, PartialEq, Eq, Hash)]
pub struct FormattingChanges {
    pub font_style: Option<FontStyle>,
    pub font_variant: Option<FontVariant>,
    pub font_weight: Option<FontWeight>,
    pub text_decoration: Option<TextDecoration>,
    pub vertical_align: Option<VerticalAlign>,
}

impl FormattingChanges {
    /// How characters look inside what looks so around: what is left open is as around.
    pub fn over(self, around: Formatting) -> Formatting
        ensures { result ≡ changed (changes_view self) around }
    {
        Formatting {
            font_style: self.font_style.unwrap_or(around.font_style),
            font_variant: self.font_variant.unwrap_or(around.font_variant),
            font_weight: self.font_weight.unwrap_or(around.font_weight),
            text_decoration: self.text_decoration.unwrap_or(around.text_decoration),
            vertical_align: self.vertical_align.unwrap_or(around.vertical_align),
        }
    }
}
