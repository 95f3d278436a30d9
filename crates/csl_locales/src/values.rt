//! Values of attributes as bytes.

ghost use Rattle.std.specs.Prelude.{◌≡◌};
ghost use Rattle.laws.specs.Text.{text as text_of_characters};
ghost use Rattle.xml_tree.specs.Views.{element_view};
ghost use Rattle.csl_words.specs.Looking.{text_of};

use csl_words::attribute;
use texts::or_empty;
use xml_tree::Element;

/// The value of an attribute, empty where there is none.
#[tactic(auto, using(laws::proofs::Text::text_of_chars))]
pub fn value_of<'e>(name: &str, element: &'e Element<'_>) -> &'e str
    ensures { result.now
        ≡ text_of_characters (text_of name.now (element_view element.now)) }
{
    or_empty(attribute(name, element))
}
