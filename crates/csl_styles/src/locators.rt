//! Whether a style prints locators.

ghost use Rattle.std.specs.Prelude.{◌≡◌, ℕ, List};
ghost use Rattle.xml_tree.specs.Trees.{content_of};
ghost use Rattle.xml_tree.specs.Views as views;
ghost use Rattle.xml_tree.specs.Views.{element_view};
ghost use Rattle.csl_styles.specs.Locators as specs;

use csl_locales::is_passed;
use csl_words::{children_of, says};
use xml_tree::Element;

/// Whether an element asks for the locator and nothing else.
fn is_of_locator(element: &Element<'_>) -> bool
    ensures { result ≡ specs.is_of_locator (element_view element.now) }
{
    says("variable", "locator", element)
}

/// Whether an element, or one in it, asks for the locator.
#[cycle(locators)]
pub(crate) fn asks_locator(element: &Element<'_>) -> bool
    ensures { result ≡ specs.asks_locator (element_view element.now) }
{
    if is_passed(element) {
        return false;
    }
    if is_of_locator(element) {
        return true;
    }
    asked_in(children_of(element))
}

/// Whether one of these elements does.
#[cycle(locators)]
fn asked_in(children: &[(String, Element<'_>)]) -> bool
    ensures { (t : List ℕ) → result
        ≡ specs.asked_in (content_of (views.children_of children.now) t) }
{
    for child in children {
        if asks_locator(&child.1) {
            return true;
        }
    }
    false
}
