//! What is said of a text that is no file of CSL.

ghost use Rattle.std.specs.Prelude.{◌≡◌, ◌++◌, IfOk, IsSomeAnd, string_bytes};
ghost use Rattle.laws.specs.Borrowed.{borrowed};
ghost use Rattle.std.specs.Str.{chars};
ghost use Rattle.laws.specs.Text.{text};
ghost use Rattle.xml_schema.specs.Views as schema;
ghost use Rattle.csl_styles.specs.Views.{wrong_view, refusal_of};
ghost use Rattle.cite_csl_styles.specs.CslLines as specs;

use csl_styles::{CslError, Wrong};
use std::alloc::{AllocError, Global};
use xml_text::Fault;

/// Why a text is no XML.
fn xml_text(fault: Fault) -> &'static str
    ensures { result.now ≡ specs.xml_text fault }
{
    match fault {
        Fault::Unclosed => "not closed",
        Fault::Unexpected => "unexpected character",
        Fault::Doctype => "document type declarations are not read",
        Fault::ReservedTarget => "XML declaration not at the beginning",
        Fault::Declaration => "malformed XML declaration",
        Fault::Encoding => "encoding other than UTF-8",
        Fault::UnknownEntity => "unknown entity",
        Fault::NoCharacter => "reference to no character",
        Fault::Repeated => "repeated attribute",
        Fault::Namespace => "namespace declaration that is not allowed",
        Fault::Unbound => "undeclared prefix",
        Fault::TooDeep => "too many levels of elements",
        Fault::SecondRoot => "second root element",
        Fault::Unopened => "end-tag of no element",
        Fault::Mismatched => "end-tag of another element",
        Fault::Outside => "text outside the root element",
        Fault::NoRoot => "no element",
        Fault::Unfinished => "element not closed",
    }
}

/// Some words, and a text after them.
pub(crate) fn text_of(alloc: Global, words: &str, name: &str) -> Result<String, AllocError>
    ensures bytes { IfOk result (λ s. string_bytes s ≡ words.now ++ name.now) }
    ensures characters { IfOk result (λ s. string_bytes s ≡ words.now ++ text (chars name.now)) }
{
    let mut text = String::from_str(alloc, words)?;
    text.push_str(name)?;
    Ok(text)
}

/// Some words, and names after them with commas between.
fn listing(alloc: Global, words: &str, names: &[&str]) -> Result<String, AllocError>
    ensures { IfOk result (λ s. string_bytes s ≡ words.now ++ specs.listed (borrowed names.now)) }
{
    let mut text = String::from_str(alloc, words)?;
    let mut rest = names;
    while let [name, others @ ..] = rest {
        text.push_str(*name)?;
        if !others.is_empty() {
            text.push_str(", ")?;
        }
        rest = others;
    }
    Ok(text)
}

/// What is wrong with an element by the schema.
fn schema_text(alloc: Global, wrong: xml_schema::Wrong<'_>) -> Result<String, AllocError>
    ensures { IfOk result (λ s. string_bytes s
        ≡ specs.schema_text (schema.wrong_view wrong.entry)) }
{
    match wrong {
        xml_schema::Wrong::Stray(rule) => text_of(alloc, "element that may not stand in ", rule),
        xml_schema::Wrong::Attribute(name) => text_of(alloc, "unknown attribute ", name),
        xml_schema::Wrong::Value(name) => text_of(alloc, "unknown value of ", name),
        xml_schema::Wrong::Lacking(names) => listing(alloc, "lacks an attribute: ", names),
        xml_schema::Wrong::Crowded(names) => {
            listing(alloc, "more than one attribute of: ", names)
        }
        xml_schema::Wrong::Childless(name) => text_of(alloc, "lacks an element ", name),
        xml_schema::Wrong::Repeated(name) => text_of(alloc, "more than one element ", name),
        xml_schema::Wrong::Text => text_of(alloc, "text that may not stand here", ""),
    }
}

/// What is wrong with an element.
fn wrong_text(alloc: Global, wrong: Wrong<'_>) -> Result<String, AllocError>
    ensures { IfOk result (λ s. string_bytes s ≡ specs.wrong_text (wrong_view wrong.entry)) }
{
    match wrong {
        Wrong::Schema(wrong) => schema_text(alloc, wrong),
        Wrong::NoCitation => text_of(alloc, "lacks an element citation", ""),
        Wrong::SecondMacro => text_of(alloc, "second macro of its name", ""),
        Wrong::UnknownMacro => text_of(alloc, "call of an unknown macro", ""),
    }
}

/// Why a text is refused, and how many of its bytes are left there.
pub fn refusal_text(alloc: Global, error: CslError<'_>) -> Result<(String, usize), AllocError>
    ensures { IfOk result (λ p. IsSomeAnd (refusal_of error.entry) (λ r.
        (string_bytes p.0 ≡ specs.refusal_text r) × (p.1 ≡ specs.refusal_left r))) }
{
    match error {
        CslError::Memory => Err(AllocError),
        CslError::Text { fault, left } => Ok((text_of(alloc, xml_text(fault), "")?, left)),
        CslError::Tree(fault) => Ok((wrong_text(alloc, fault.wrong)?, fault.left)),
        CslError::Ring { name, left } => {
            Ok((text_of(alloc, "circular macro ", name.as_str())?, left))
        }
        CslError::TooDeep { left } => Ok((text_of(alloc, "more than 200 levels", "")?, left)),
    }
}
