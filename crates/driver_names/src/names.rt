//! Names that disambiguate the cites of a class.

ghost use Rattle.std.specs.Prelude.{◌≡◌, ◌+◌, ◌<◌, ◌^◌, fold, length, map, IfOk, OnOk};
ghost use Rattle.std.specs.List.{range_with_len};
ghost use Rattle.driver_requests.specs.SuffixViews.{origin_view};
ghost use Rattle.driver_names.specs.Names as names;
ghost use Rattle.driver_names.specs.Names.{distinguished_by};
ghost use Rattle.driver_names.specs.NamesViews.{members_view};
ghost use Rattle.driver_names.specs.Namesakes as namesakes_specs;
ghost use Rattle.driver_names.specs.Namesakes.{AreFormsAt};
ghost use Rattle.driver_names.specs.Shared as shared_specs;
ghost use Rattle.driver_names.specs.Shared.{AreShared};
ghost use Rattle.driver_names.specs.Views.{class_view, given_states_view};

use crate::given_state::GivenState;
use crate::names_members::{Member, distinctions, members, people_compared, show_found, states};
use crate::names_raised::forms_after;
use crate::names_shared::shared_people;
use crate::printed::Printed;
use driver_requests::Origin;
use rendering_taxonomy::DisambiguatedNameForm;
use std::alloc::{AllocError, Global};

/// What names give to the cites of a class: more people, and more of given names.
///
/// # Errors
/// Out of memory.
pub fn states_by_names(
    alloc: Global,
    adds_names: bool,
    origin: Origin,
    class: &[&Printed],
) -> Result<Vec<GivenState>, AllocError>
    ensures { IfOk result (λ g. given_states_view g.items
        ≡ names.states_by_names adds_names (origin_view origin) (class_view class.now)) }
{
    let mut members = members(alloc, class)?;
    let compared = people_compared(adds_names, members.as_slice());
    let shared = shared_people(alloc, members.as_slice(), compared)?;
    let forms = forms_after(alloc, members.as_slice(), shared.as_slice(), compared)?;
    distinguish(
        alloc,
        &mut members,
        shared.as_slice(),
        forms.as_slice(),
        compared,
    )?;
    states(alloc, origin, members)
}

/// Compares the first people of all cites, then the first two, and so on up to so many.
fn distinguish(
    alloc: Global,
    members: &mut Vec<Member>,
    shared: &[usize],
    forms: &[Option<DisambiguatedNameForm>],
    compared: usize,
) -> Result<(), AllocError>
    requires shared { shared.now
        ≡ map (shared_specs.shared_people compared (members_view members.old.items))
        (members_view members.old.items) }
    requires forms { forms.now
        ≡ namesakes_specs.forms_after compared (members_view members.old.items) }
    ensures { OnOk result (members_view members.new.items
        ≡ fold distinguished_by (members_view members.old.items) (range_with_len 0 compared)) }
{
    for index in 0..compared {
        distinguish_by(alloc, members, shared, forms, index)?;
    }
    Ok(())
}

/// Where the people up to an index newly disambiguate some cite, raises that cite's name at it, and shows so many names of all cites.
fn distinguish_by(
    alloc: Global,
    members: &mut Vec<Member>,
    shared: &[usize],
    forms: &[Option<DisambiguatedNameForm>],
    index: usize,
) -> Result<(), AllocError>
    requires room { index + 1 < 2 ^ 64 }
    requires len { length shared.now ≡ length members.old.items }
    requires shared { AreShared index (members_view members.old.items) shared.now }
    requires form_len { length forms.now ≡ length members.old.items }
    requires forms { AreFormsAt index (members_view members.old.items) forms.now }
    ensures { OnOk result (members_view members.new.items
        ≡ distinguished_by (members_view members.old.items) index) }
{
    let found = distinctions(alloc, members.as_slice(), shared, forms, index)?;
    show_found(members.as_mut_slice(), index, found.as_slice());
    Ok(())
}
