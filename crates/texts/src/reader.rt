//! Reads a text from the left, and borrows what it finds.

ghost use Rattle.std.specs.Prelude.{◌≡◌, ◌<◌, ◌≤◌, ◌^◌, ◌&&◌, nat_le, IfOk};
ghost use Rattle.std.specs.Str.{chars};
ghost use Rattle.laws.specs.Results.{Reads, Passes};
ghost use Rattle.laws.specs.Runs.{prefix_of, after};
ghost use Rattle.texts.specs.Character.{passes};
ghost use Rattle.texts.specs.Reading.{number_at, end_at, digits_at, token_at, taken, mark_at};
ghost use Rattle.texts.specs.Views.{left};

use crate::character::{CharacterClass, Class, split_first, split_run};

/// The text cannot be read.
#[derive(Clone, Copy)]
pub enum Unreadable {
    /// What is wanted does not stand there.
    NotThere,
}

/// What is left to read.
#[derive(Drop)]
pub struct Reader<'s> {
    pub rest: &'s str,
}

impl<'s> Reader<'s> {
    pub fn new(text: &'s str) -> Reader<'s>
        ensures { left result ≡ chars text.now }
    {
        Reader { rest: text }
    }

    /// The longest run of the class that stands here.
    pub fn run(&mut self, class: Class) -> &'s str
        ensures prefix { chars result.now ≡ prefix_of (passes class) (left self.old) }
        ensures rest { left self.new ≡ after (passes class) (left self.old) }
    {
        let (prefix, rest) = split_run(self.rest, class);
        self.rest = rest;
        prefix
    }

    /// The number that the digits here spell.
    ///
    /// # Errors
    /// `NotThere` where no digit stands here, or the number is above 2147483647.
    pub fn number(&mut self) -> Result<i32, Unreadable>
        ensures { Reads (λ n. n) result (left self.new) (number_at (left self.old)) }
    {
        match self.run(Class::Digit).parse::<i32>() {
            Ok(number) => Ok(number),
            Err(_) => Err(Unreadable::NotThere),
        }
    }

    /// The number that the digits here spell, of which there are at least `least` and at most `most`.
    ///
    /// # Errors
    /// `NotThere` where there are fewer or more.
    pub fn digits(&mut self, least: usize, most: usize) -> Result<u16, Unreadable>
        requires some { 0 < least }
        requires few { most ≤ 4 }
        ensures reads { Reads (λ n. n) result (left self.new)
            (digits_at least most (left self.old)) }
        ensures below { IfOk result (λ n. n < 10 ^ most) }
    {
        let digits = self.run(Class::Digit);
        if !is_within(least, most, digits.len()) {
            return Err(Unreadable::NotThere);
        }
        Ok(digits.parse::<u16>().unwrap())
    }

    /// Takes the character, which must stand here.
    ///
    /// # Errors
    /// `NotThere` where another character or none stands here.
    pub fn expect(&mut self, wanted: char) -> Result<(), Unreadable>
        ensures { Passes result (left self.new) (token_at wanted (left self.old)) }
    {
        match split_first(self.rest) {
            Some((c, rest)) if c == wanted => {
                self.rest = rest;
                Ok(())
            }
            _ => Err(Unreadable::NotThere),
        }
    }

    /// Takes the character if it stands here, and says whether it does.
    pub fn take(&mut self, wanted: char) -> bool
        ensures { taken wanted (left self.old) ≡ (result, left self.new) }
    {
        match split_first(self.rest) {
            Some((c, rest)) if c == wanted => {
                self.rest = rest;
                true
            }
            _ => false,
        }
    }

    /// Takes a mark of an uncertain or approximate date if one stands here, and says whether one does.
    pub fn take_mark(&mut self) -> bool
        ensures { mark_at (left self.old) ≡ (result, left self.new) }
    {
        match split_first(self.rest) {
            Some((c, rest)) if Class::Mark.contains(c) => {
                self.rest = rest;
                true
            }
            _ => false,
        }
    }

    /// Checks that the text is at its end.
    ///
    /// # Errors
    /// `NotThere` where a character is left.
    pub fn end(&mut self) -> Result<(), Unreadable>
        ensures { Passes result (left self.new) (end_at (left self.old)) }
    {
        match split_first(self.rest) {
            None => Ok(()),
            Some(_) => Err(Unreadable::NotThere),
        }
    }
}

fn is_within(least: usize, most: usize, count: usize) -> bool
    ensures { result ≡ nat_le least count && nat_le count most }
{
    least <= count && count <= most
}
