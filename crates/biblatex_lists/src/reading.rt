//! Lists of people, read from a value.

ghost use Rattle.std.specs.Prelude.{◌≡◌, ◌++◌, ◌∷◌, [], List, IfOk, OnOk, map};
ghost use Rattle.std.specs.List.{filter};
ghost use Rattle.laws.specs.Borrowed.{borrowed};
ghost use Rattle.biblatex_content.specs.Views.{styled};
ghost use Rattle.biblatex_lists.specs.declared.styled_char.StyledChar.{StyledChar};
ghost use Rattle.biblatex_lists.specs.Reading.{is_letter, is_others, is_someone, people_in, people_of, person_in, without_others};
ghost use Rattle.biblatex_lists.specs.Views.{AreFoundIn, named_view};

use crate::name::read_person;
use crate::parting::parts;
use crate::person::Person;
use crate::styled_char::{StyledChar, styled_chars};
use biblatex_content::{Chunk, Spanned};
use std::alloc::{AllocError, Global};

/// The people that were found so far.
#[derive(Drop)]
pub(crate) struct Found {
    people: Vec<Person>,
    ends_in_others: bool,
}

/// Whether it is the Normal letter, in this case.
fn is_letter(styled: StyledChar, c: char) -> bool
    ensures { result ≡ is_letter c styled }
{
    styled.is_normal && styled.c == c
}

/// Whether the text is `others`, in Normal letters of lower case.
fn is_others(text: &[StyledChar]) -> bool
    ensures { result ≡ is_others text.now }
{
    match text {
        [o, t, h, e, r, s] => {
            is_letter(*o, 'o')
                && is_letter(*t, 't')
                && is_letter(*h, 'h')
                && is_letter(*e, 'e')
                && is_letter(*r, 'r')
                && is_letter(*s, 's')
        }
        _ => false,
    }
}

impl Found {
    /// Nobody was found yet.
    fn new(alloc: Global) -> Found
        ensures { AreFoundIn result [] }
    {
        Found {
            people: Vec::new(alloc),
            ends_in_others: false,
        }
    }

    /// Takes a part of the list, if it names someone.
    fn take_part(&mut self, alloc: Global, part: &[StyledChar]) -> Result<(), AllocError>
        ensures { (ps : List (List StyledChar)) → AreFoundIn self.old ps
            → OnOk result (AreFoundIn self.new (ps ++ filter is_someone (part.now ∷ []))) }
    {
        let person = read_person(alloc, part)?;
        if !person.is_named() {
            return Ok(());
        }
        self.people.push(person)?;
        self.ends_in_others = is_others(part);
        Ok(())
    }

    /// The people that were found, without a last `others`.
    fn finish(mut self) -> Vec<Person>
        ensures { (ps : List (List StyledChar)) → AreFoundIn self ps
            → map named_view result.items ≡ map person_in (without_others ps) }
    {
        if self.ends_in_others {
            let count = self.people.len().saturating_sub(1);
            self.people.truncate(count);
        }
        self.people
    }
}

/// The people in parts between `and`.
fn people_of(alloc: Global, parts: &[&[StyledChar]]) -> Result<Vec<Person>, AllocError>
    ensures { IfOk result (λ ps. map named_view ps.items ≡ people_of (borrowed parts.now)) }
{
    let mut found = Found::new(alloc);
    for part in parts {
        found.take_part(alloc, part)?;
    }
    Ok(found.finish())
}

/// The people in a value. They stand between the words `and`; a last one `others` is left out, as is one without a name.
/// Without a comma small words before the last word part the given names from the name; with commas the name comes first,
/// then the suffix, then the given names; or each part is a key, an equals sign and a value. Verbatim text and math never
/// part anything.
pub fn read_people(alloc: Global, value: &[Spanned<Chunk>]) -> Result<Vec<Person>, AllocError>
    ensures { IfOk result (λ ps. map named_view ps.items ≡ people_in (styled value.now)) }
{
    let text = styled_chars(alloc, value)?;
    people_of(alloc, &parts(alloc, &text)?)
}
