//! The state of disambiguation of a cite, as a value of a case.

use cases::{Session, Value, member, value_of};
use cases_rendering::NAME_FORMS;
use literature::Entry;
use rendering::{
    CiteProperties, DisambiguateState, DisambiguatedNameForm, Effort, NameDisambiguationProperties,
    StyleContext,
};
use std::alloc::AllocError;

/// The state of disambiguation of a cite of which that is known otherwise: the member `disambiguation`, which may be left out.
pub(crate) fn state(
    session: &mut Session,
    object: &Value<'_>,
    context: &StyleContext<'_>,
    entry: &Entry,
    alike: &CiteProperties<'_>,
) -> DisambiguateState {
    let Some(given) = member(object, "disambiguation") else {
        return DisambiguateState::None;
    };
    match given.as_str() {
        None => state_in(session, given, context, entry, alike),
        Some("none") => DisambiguateState::None,
        Some("choose") => DisambiguateState::Choose,
        Some(_) => {
            session.want("disambiguation", "none, choose or an object");
            DisambiguateState::None
        }
    }
}

/// The state that the members of an object say: a year suffix, or names.
fn state_in(
    session: &mut Session,
    given: &Value<'_>,
    context: &StyleContext<'_>,
    entry: &Entry,
    alike: &CiteProperties<'_>,
) -> DisambiguateState {
    session.only(given, &["year_suffix", "add_name", "forms"]);
    if let Some(index) = session.maybe_byte(given, "year_suffix") {
        return DisambiguateState::YearSuffix(index);
    }
    let shown = session.count(given, "add_name");
    let forms = forms(session, given);
    match session.allocated(own_names(context, entry, alike)) {
        Some(Some(names)) => raised(names, shown, forms.as_slice()),
        _ => DisambiguateState::None,
    }
}

/// The names that a cite prints of itself.
fn own_names(
    context: &StyleContext<'_>,
    entry: &Entry,
    alike: &CiteProperties<'_>,
) -> Result<Option<NameDisambiguationProperties>, AllocError> {
    let mut effort = Effort::default();
    let rendering = context.citation(entry, alike, None, None, None, &mut effort)?;
    Ok(rendering.names)
}

/// Names of which so many at least are shown, and that have these forms.
fn raised(
    names: NameDisambiguationProperties,
    shown: usize,
    forms: &[Option<DisambiguatedNameForm>],
) -> DisambiguateState {
    let mut names = names;
    let _is_changed = names.add_name(shown);
    for index in 0..forms.len() {
        set_form(&mut names, index, forms[index]);
    }
    DisambiguateState::NameDisambiguation(names)
}

/// Sets the form of the person at an index, where there are both.
fn set_form(
    names: &mut NameDisambiguationProperties,
    index: usize,
    form: Option<DisambiguatedNameForm>,
) {
    let Some(wanted) = form else {
        return;
    };
    if let Some(form) = names.get_form_mut(index) {
        *form = wanted;
    }
}

/// The forms of a list that may be left out, some of which may be null.
fn forms(session: &mut Session, given: &Value<'_>) -> Vec<Option<DisambiguatedNameForm>> {
    let mut forms = Vec::new(session.alloc);
    let Some(items) = session.items(given, "forms") else {
        return forms;
    };
    for item in items {
        let form = value_of(NAME_FORMS, item.as_str().unwrap_or(""));
        if form.is_none() && !matches!(item, Value::Null) {
            session.want("forms", "a list of forms of names");
        }
        session.push(&mut forms, form);
    }
    forms
}
