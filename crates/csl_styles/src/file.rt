//! What a file means.

use csl_nodes::Words;
use rendering_locale::{Locale, LocaleCode};
use rendering_style::Style;

/// What a file means.
#[derive(Drop)]
pub enum Csl {
    /// A dependent style: the name of its parent, which is the last segment of the parent's address, and its default locale.
    Dependent {
        parent: String,
        default_locale: Option<LocaleCode>,
    },
    /// A style, and the words of the terms that no list has: `Term::Word` counts them.
    Independent {
        words: Words,
        style: Style,
    },
    /// A locale, and such words of its own.
    Localized {
        words: Words,
        locale: Locale,
    },
}
