//! Genders in cases and in answers.

use crate::values::case_value::{CaseValue, given, put_member, put_or_null};
use crate::{Session, Value, value_of, word_of};
use biblatex::Gender;

const WORDS: &[(&str, Gender)] = &[
    ("singular-female", Gender::SingularFemale),
    ("singular-male", Gender::SingularMale),
    ("singular-neuter", Gender::SingularNeuter),
    ("plural-female", Gender::PluralFemale),
    ("plural-male", Gender::PluralMale),
    ("plural-neuter", Gender::PluralNeuter),
];

impl CaseValue for Gender {
    fn given(session: &mut Session, value: &Value<'_>) -> Gender {
        match value_of(WORDS, value.as_str().unwrap_or("")) {
            Some(gender) => gender,
            None => {
                session.want("gender", "a word as singular-female");
                Gender::SingularNeuter
            }
        }
    }

    fn put(&self, session: &mut Session) {
        session.string(word_of(WORDS, *self));
    }
}

/// The singular and the plural of a gender.
pub(crate) fn answer(session: &mut Session, case: &Value<'_>) {
    session.only(case, &["case", "name", "gender"]);
    let gender: Gender = given(session, case, "gender");
    put_member(session, "singular", &gender.singular());
    put_member(session, "plural", &gender.plural());
}

/// The gender of a list together.
pub(crate) fn answer_together(session: &mut Session, case: &Value<'_>) {
    session.only(case, &["case", "name", "genders"]);
    let genders: Vec<Gender> = given(session, case, "genders");
    let gender = Gender::coalesce(genders.as_slice());
    session.key("gender");
    put_or_null(session, gender.as_ref());
}
