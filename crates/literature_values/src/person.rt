//! People.

ghost use Rattle.std.specs.Prelude.{◌≡◌, ◌++◌, [], Ok, IsOk, length, drop};
ghost use Rattle.std.specs.Fmt.{WritesInCalls};
ghost use Rattle.std.specs.Option.{option_map, unwrap_or};
ghost use Rattle.std.specs.Str.{chars, drop_trailing_whitespace};
ghost use Rattle.laws.specs.Text.{text as text_of, spelled};
ghost use Rattle.literature_values.specs.Initials.{next_run_at, cluster, style, initial, between, further, initials_of};
ghost use Rattle.literature_values.specs.GivenNames.{given_by};
ghost use Rattle.literature_values.specs.PersonViews.{person_view, run_view, initials_style_view, given_name_view};
ghost use Rattle.texts.specs.Views.{left};

use crate::given_name::{InitialsRule, write_given};
use std::alloc::AllocError;
use std::fmt;
use texts::{Class, Reader, or_empty, split_first, text_or_empty};
use unicode_segmentation::UnicodeSegmentation;

/// A person by name.
#[derive(Debug, PartialEq, Eq, Drop)]
pub struct Person {
    pub name: String,
    pub given_name: Option<String>,
    pub prefix: Option<String>,
    pub suffix: Option<String>,
}

/// How initials are parted: by a delimiter, cut before the white space at its end, and by hyphens where that is asked.
#[derive(Clone, Copy)]
pub(crate) struct InitialsStyle<'s> {
    trimmed: &'s str,
    dropped: &'s str,
    with_hyphen: bool,
}

impl Person {
    /// Writes the initials of the given name: of each run without white space and hyphens its first grapheme cluster
    /// and the delimiter; between runs with a hyphen between them, where hyphens are asked, a hyphen instead of the
    /// white space at the delimiter's end. The white space at the end of the last delimiter is not written.
    ///
    /// # Errors
    /// What the writer returns when it refuses a text.
    pub fn initials<W: fmt::Write>(
        &self,
        writer: &mut W,
        delimiter: Option<&str>,
        with_hyphen: bool,
    ) -> fmt::Result
        // What the writer took is exactly the initials.
        ensures { IsOk result → WritesInCalls W.write_str_gives writer.old (text_of (initials_of
            (style (unwrap_or (option_map spelled delimiter.entry) []) with_hyphen)
            (given_name_view self.now))) writer.new }
    {
        self.initials_by(InitialsRule::Runs, writer, delimiter, with_hyphen)
    }

    /// Writes the given name by a rule, with the delimiter after each initial. Between two initials stands what
    /// `initials` has there; a hyphen or a space stands before and after what stays whole.
    ///
    /// # Errors
    /// What the writer returns when it refuses a text.
    pub fn initials_by<W: fmt::Write>(
        &self,
        rule: InitialsRule,
        writer: &mut W,
        delimiter: Option<&str>,
        with_hyphen: bool,
    ) -> fmt::Result
        // What the writer took is exactly the given name by the rule.
        ensures { IsOk result → WritesInCalls W.write_str_gives writer.old (text_of (given_by rule
            (style (unwrap_or (option_map spelled delimiter.entry) []) with_hyphen)
            (given_name_view self.now))) writer.new }
    {
        let given = text_or_empty(&self.given_name);
        write_given(given, rule, style(delimiter, with_hyphen), writer)
    }
}

impl Clone for Person {
    ghost is_clone = { λ p q. person_view q ≡ person_view p };

    fn clone(&self) -> Result<Person, AllocError> {
        Ok(Person {
            name: self.name.clone()?,
            given_name: self.given_name.clone()?,
            prefix: self.prefix.clone()?,
            suffix: self.suffix.clone()?,
        })
    }
}

/// How a delimiter parts initials.
fn style<'s>(delimiter: Option<&'s str>, with_hyphen: bool) -> InitialsStyle<'s>
    ensures { initials_style_view result
        ≡ style (unwrap_or (option_map spelled delimiter.entry) []) with_hyphen }
{
    let (trimmed, dropped) = split_trailing(or_empty(delimiter));
    InitialsStyle {
        trimmed,
        dropped,
        with_hyphen,
    }
}

/// Writes the initials of given names.
#[tactic(auto, unfolding(crate::specs::Initials::initials_of))]
pub(crate) fn write_initials<W: fmt::Write>(
    given: &str,
    style: InitialsStyle,
    writer: &mut W,
) -> fmt::Result
    ensures { IsOk result → WritesInCalls W.write_str_gives writer.old
        (text_of (initials_of (initials_style_view style.entry) (chars given.now))) writer.new }
{
    let mut reader = Reader::new(given);
    let Some(first) = next_run(&mut reader) else {
        return Ok(());
    };
    write_initial(first.name, style, writer)?;
    while let Some(run) = next_run(&mut reader) {
        write_further(run, style, writer)?;
    }
    Ok(())
}

/// Writes the initial of a run after another one.
fn write_further<W: fmt::Write>(next: NameRun, style: InitialsStyle, writer: &mut W) -> fmt::Result
    ensures { IsOk result → WritesInCalls W.write_str_gives writer.old
        (text_of (further (initials_style_view style.entry) (run_view next.entry))) writer.new }
{
    write_text(between(next.is_hyphenated, style), writer)?;
    write_initial(next.name, style, writer)
}

/// What stands between two initials.
pub(crate) fn between<'s>(is_hyphenated: bool, style: InitialsStyle<'s>) -> &'s str
    ensures { chars result.now ≡ between (initials_style_view style.entry) is_hyphenated }
{
    if style.with_hyphen && is_hyphenated {
        return "-";
    }
    style.dropped
}

/// Writes the first cluster of a run, and the delimiter without the white space at its end.
fn write_initial<W: fmt::Write>(name: &str, style: InitialsStyle, writer: &mut W) -> fmt::Result
    ensures { IsOk result → WritesInCalls W.write_str_gives writer.old
        (text_of (initial (initials_style_view style.entry) (chars name.now))) writer.new }
{
    write_initial_text(first_cluster(name), style, writer)
}

/// Writes a text, and the delimiter without the white space at its end.
pub(crate) fn write_initial_text<W: fmt::Write>(
    text: &str,
    style: InitialsStyle,
    writer: &mut W,
) -> fmt::Result
    ensures { IsOk result → WritesInCalls W.write_str_gives writer.old
        (text_of (chars text.now ++ (initials_style_view style.entry).trimmed)) writer.new }
{
    write_text(text, writer)?;
    write_text(style.trimmed, writer)
}

pub(crate) fn write_text<W: fmt::Write>(text: &str, writer: &mut W) -> fmt::Result
    ensures { IsOk result
        → WritesInCalls W.write_str_gives writer.old (text_of (chars text.now)) writer.new }
{
    writer.write_str(text)
}

/// A run of a given name without white space and hyphens, and whether a hyphen stands before it.
#[derive(Clone, Copy)]
struct NameRun<'s> {
    is_hyphenated: bool,
    name: &'s str,
}

/// The next run, or nothing at the end.
#[tactic(auto, unfolding(crate::specs::Initials::next_run_at))]
fn next_run<'s>(reader: &mut Reader<'s>) -> Option<NameRun<'s>>
    ensures { next_run_at (left reader.old) ≡ Ok (option_map run_view result, left reader.new) }
{
    reader.run(Class::Blank);
    let is_hyphenated = reader.take('-');
    reader.run(Class::Apart);
    let name = reader.run(Class::Name);
    split_first(name)?;
    Some(NameRun {
        is_hyphenated,
        name,
    })
}

/// The first grapheme cluster, or nothing.
pub(crate) fn first_cluster(text: &str) -> &str
    ensures { chars result.now ≡ cluster (chars text.now) }
{
    match text.graphemes(true).next() {
        Some(cluster) => cluster,
        None => "",
    }
}

/// The text without the white space at its end, and that white space.
fn split_trailing(text: &str) -> (&str, &str)
    ensures trimmed { chars result.0.now ≡ drop_trailing_whitespace (chars text.now) }
    ensures dropped { chars result.1.now
        ≡ drop (length (drop_trailing_whitespace (chars text.now))) (chars text.now) }
{
    text.split_at(text.trim_end().len())
}
