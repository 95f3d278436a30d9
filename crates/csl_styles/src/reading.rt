//! Texts of styles and of locales.

ghost use Rattle.std.specs.Prelude.{◌≡◌, ◌&&◌, [], ℕ, List, codes, Some, None, IfOk, IfSome, MatchResult};
ghost use Rattle.std.specs.List.{find};
ghost use Rattle.std.specs.Option.{option_map_or};
ghost use Rattle.std.specs.Str.{chars, bytes_eq};
ghost use Rattle.laws.specs.Results.{GivesBack};
ghost use Rattle.xml_tree.specs.Grammar.{Spells};
ghost use Rattle.xml_tree.specs.Trees as trees;
ghost use Rattle.xml_tree.specs.Trees.{content_of};
ghost use Rattle.xml_tree.specs.Views as views;
ghost use Rattle.xml_tree.specs.Views.{element_view};
ghost use Rattle.xml_schema.specs.Faults.{left_at};
ghost use Rattle.rendering_style.specs.Opening.{macro_ring};
ghost use Rattle.rendering_style.specs.Errors as styles;
ghost use Rattle.rendering_style.specs.Views.{style_parts_view};
ghost use Rattle.csl_locales.specs.Called.{all_called};
ghost use Rattle.csl_styles.specs.Faults.{faults, macro_name, is_macro, wrong_left, placed_in};
ghost use Rattle.csl_styles.specs.Files as files;
ghost use Rattle.csl_styles.specs.Files.{meaning, style_by};
ghost use Rattle.csl_styles.specs.Reading.{blamed, IsAnswered, Means, MeansBy, IsRefused, OfTree};
ghost use Rattle.csl_styles.specs.Outcomes.{IsPlaced, IsBuilt, IsReadAs, IsChecked, IsSound, text_error};
ghost use Rattle.csl_styles.specs.Views.{csl_view, fault_view, refusal_of, wrong_view};

use crate::error::CslError;
use crate::fault::{Fault, Wrong};
use crate::faults::{first_fault, left_of, macro_name};
use crate::file::Csl;
use crate::information::parent_of;
use crate::styles::{default_locale, style};
use csl_locales::{locale, unlisted_words};
use csl_words::{children_of, is_called};
use rendering_style::{Style, StyleError, StyleParts};
use std::alloc::{AllocError, Global};
use texts::owned;
use xml_schema::fault_left;
use xml_tree::{Element, TreeError, parse};

/// Whether an element is a macro of that name.
fn is_macro_named(name: &str, element: &Element<'_>) -> bool
    ensures { result ≡ (is_macro (element_view element.now)
        && bytes_eq (macro_name (element_view element.now)) name.now) }
{
    is_called("macro", element) && macro_name(element) == name
}

/// Where the start-tag of the first macro of that name among these elements begins, or else that place.
fn left_among(name: &str, children: &[(String, Element<'_>)], otherwise: usize) -> usize
    ensures { (t : List ℕ) → result ≡ option_map_or left_at
        (find (λ m. bytes_eq (macro_name m) name.now)
        (all_called (codes "macro") (content_of (views.children_of children.now) t))) otherwise }
{
    for child in children {
        if is_macro_named(name, &child.1) {
            return left_of(&child.1);
        }
    }
    otherwise
}

/// Where the start-tag of the first macro of that name begins, or that of the style.
fn macro_left(name: &str, root: &Element<'_>) -> usize
    ensures { result ≡ blamed (macro_ring name.now) (element_view root.now) }
{
    left_among(name, children_of(root), left_of(root))
}

/// The refusal of a style, at the place of what it blames.
fn refused<'s>(error: StyleError, root: &Element<'s>) -> CslError<'s>
    ensures { IsPlaced (element_view root.now) (styles.refusal_of error) (refusal_of result) }
{
    match error {
        StyleError::Memory => CslError::Memory,
        StyleError::MacroRing(name) => {
            let left = macro_left(name.as_str(), root);
            CslError::Ring { name, left }
        }
        StyleError::TooDeep => CslError::TooDeep {
            left: left_of(root),
        },
    }
}

/// The style of these parts, of a file with that root.
fn built<'s>(alloc: Global, parts: StyleParts, root: &Element<'s>) -> Result<Style, CslError<'s>>
    ensures { IsBuilt (element_view root.now) (style_parts_view parts) result }
{
    match Style::new(alloc, parts) {
        Ok(style) => Ok(style),
        Err(error) => Err(refused(error, root)),
    }
}

/// The style that a root means.
fn independent<'s>(alloc: Global, root: &Element<'s>) -> Result<Csl, CslError<'s>>
    ensures { IsReadAs (element_view root.now) (style_by None (element_view root.now)) result }
{
    let words = unlisted_words(alloc, root)?;
    let parts = style(alloc, &words, root)?;
    match built(alloc, parts, root) {
        Ok(style) => Ok(Csl::Independent { words, style }),
        Err(error) => Err(error),
    }
}

/// The dependent style that a root means.
fn dependent<'s>(alloc: Global, parent: &str, root: &Element<'s>) -> Result<Csl, CslError<'s>>
    ensures { IsReadAs (element_view root.now)
        (style_by (Some parent.now) (element_view root.now)) result }
{
    let parent = owned(alloc, parent)?;
    let default_locale = default_locale(alloc, root)?;
    Ok(Csl::Dependent {
        parent,
        default_locale,
    })
}

/// The locale that a root means.
fn localized<'s>(alloc: Global, root: &Element<'s>) -> Result<Csl, CslError<'s>>
    ensures { IsReadAs (element_view root.now) (files.localized (element_view root.now)) result }
{
    let words = unlisted_words(alloc, root)?;
    let locale = locale(alloc, &words, root)?;
    Ok(Csl::Localized { words, locale })
}

/// What a root means.
fn file_of<'s>(alloc: Global, root: &Element<'s>) -> Result<Csl, CslError<'s>>
    ensures { IsReadAs (element_view root.now) (meaning (element_view root.now)) result }
{
    if is_called("locale", root) {
        return localized(alloc, root);
    }
    match parent_of(root) {
        Some(parent) => dependent(alloc, parent, root),
        None => independent(alloc, root),
    }
}

/// How many bytes of a text are left where that is wrong with an element of its tree whose start-tag begins where so many are left.
fn wrong_left(alloc: Global, text: &str, wrong: Wrong<'_>, left: usize) -> Result<usize, AllocError>
    ensures { IfOk result (λ n. n ≡ wrong_left (chars text.now) (wrong_view wrong.entry) left) }
{
    match wrong {
        Wrong::Schema(wrong) => fault_left(alloc, text, wrong, left),
        Wrong::NoCitation => Ok(left),
        Wrong::SecondMacro => Ok(left),
        Wrong::UnknownMacro => Ok(left),
    }
}

/// The refusal of a text whose tree has this fault first.
fn tree_error<'s>(alloc: Global, text: &str, fault: Fault<'s>) -> CslError<'s>
    ensures { IfSome (refusal_of result)
        (λ r. r ≡ OfTree (placed_in (chars text.now) (fault_view fault.entry))) }
{
    match wrong_left(alloc, text, fault.wrong, fault.left) {
        Ok(left) => CslError::Tree(Fault {
            left,
            wrong: fault.wrong,
        }),
        Err(_) => CslError::Memory,
    }
}

/// What the tree of a text means, unless it has a fault.
fn checked<'s>(alloc: Global, text: &str, root: &Element<'s>) -> Result<Csl, CslError<'s>>
    ensures { IsChecked (chars text.now) (element_view root.now) result }
{
    match first_fault(alloc, root)? {
        Some(fault) => Err(tree_error(alloc, text, fault)),
        None => file_of(alloc, root),
    }
}

/// The tree of a text, and what it means, unless it has a fault.
fn with_meaning<'s>(
    alloc: Global,
    text: &str,
    root: Element<'s>,
) -> Result<(Element<'s>, Csl), CslError<'s>>
    requires { Spells (element_view root) (chars text.now) }
    ensures exact { MatchResult result
        (λ p. MeansBy (chars text.now) (element_view p.0) (csl_view p.1))
        (λ e. IfSome (refusal_of e) (IsRefused (chars text.now))) }
    ensures only { faults (element_view root.entry) ≡ []
        → IsAnswered (meaning (element_view root.entry)) None
        → GivesBack refusal_of (λ p. csl_view p.1) result (meaning (element_view root.entry)) }
{
    match checked(alloc, text, &root) {
        Ok(csl) => Ok((root, csl)),
        Err(error) => Err(error),
    }
}

/// The same of a text that gives no tree.
fn text_error<'s>(error: TreeError) -> CslError<'s>
    ensures { result ≡ text_error error }
{
    match error {
        TreeError::Memory => CslError::Memory,
        TreeError::Fault { fault, left } => CslError::Text { fault, left },
    }
}

/// The tree of a text, unless it has a fault.
fn sound<'s>(alloc: Global, text: &str, root: Element<'s>) -> Result<Element<'s>, CslError<'s>>
    requires { Spells (element_view root) (chars text.now) }
    ensures { IsSound (chars text.now) result }
{
    match first_fault(alloc, &root)? {
        Some(fault) => Err(tree_error(alloc, text, fault)),
        None => Ok(root),
    }
}

/// The tree of a text that has no fault by the rules of CSL, whatever it means.
///
/// # Errors
/// `Text` where the text is no XML with namespaces; else `Tree` with the first fault of its tree, at its place. `Memory` where a request for memory
/// was refused.
pub fn sound_tree<'s>(alloc: Global, text: &'s str) -> Result<Element<'s>, CslError<'s>>
    // The text spells the tree, which has no fault; what is refused it refuses for that reason.
    ensures { IsSound (chars text.now) result }
{
    match parse(alloc, text) {
        Ok(root) => sound(alloc, text, root),
        Err(error) => Err(text_error(error)),
    }
}

/// The tree of a text, and what it means: a style, a dependent style or a locale.
///
/// # Errors
/// Those of `read`.
pub fn read_tree<'s>(alloc: Global, text: &'s str) -> Result<(Element<'s>, Csl), CslError<'s>>
    // What is read the text means by its tree, and what is refused it refuses for that reason.
    ensures exact { MatchResult result
        (λ p. MeansBy (chars text.now) (element_view p.0) (csl_view p.1))
        (λ e. IfSome (refusal_of e) (IsRefused (chars text.now))) }
    // What the text means is read, unless memory runs out.
    ensures only { (x : trees.Element) → Spells x (chars text.now) → faults x ≡ []
        → IsAnswered (meaning x) None
        → GivesBack refusal_of (λ p. csl_view p.1) result (meaning x) }
{
    match parse(alloc, text) {
        Ok(root) => with_meaning(alloc, text, root),
        Err(error) => Err(text_error(error)),
    }
}

/// What a text means: a style, a dependent style or a locale.
///
/// # Errors
/// `Text` where the text is no XML with namespaces; else `Tree` with the first fault of its tree, at its place; else `Ring` or `TooDeep` where its style is
/// refused. `Memory` where a request for memory was refused.
pub fn read<'s>(alloc: Global, text: &'s str) -> Result<Csl, CslError<'s>>
    // What is read the text means, and what is refused it refuses for that reason.
    ensures exact { MatchResult result (λ c. Means (chars text.now) (csl_view c))
        (λ e. IfSome (refusal_of e) (IsRefused (chars text.now))) }
    // What the text means is read, unless memory runs out.
    ensures only { (x : trees.Element) → Spells x (chars text.now) → faults x ≡ []
        → IsAnswered (meaning x) None → GivesBack refusal_of csl_view result (meaning x) }
{
    match read_tree(alloc, text) {
        Ok((_root, csl)) => Ok(csl),
        Err(error) => Err(error),
    }
}
