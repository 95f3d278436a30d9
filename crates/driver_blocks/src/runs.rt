//! What is left of cites in a long run.

ghost use Rattle.std.specs.Prelude.{◌≡◌, ◌++◌, ◌∷◌, OnOk, map};
ghost use Rattle.rendering_style.specs.Styles.{Citation};
ghost use Rattle.driver_blocks.specs.Runs.{collapsed_run, last_after_dash};
ghost use Rattle.driver_blocks.specs.Views.{after_dash, arranged_view, hidden};

use crate::cite::{Arranged, Before};
use std::alloc::AllocError;

/// Appends a run, of which, where it is long, the first and, after a dash, the last are shown.
pub(crate) fn push_run<'a>(
    first: Arranged<'a>,
    others: &[Arranged<'a>],
    all: &mut Vec<Arranged<'a>>,
) -> Result<(), AllocError>
    ensures { OnOk result ((c : Citation)
        → map (arranged_view c) all.new.items ≡ map (arranged_view c) all.old.items
        ++ collapsed_run (arranged_view c first.entry ∷ map (arranged_view c) others.now)) }
{
    all.push(first)?;
    if others.len() >= 2 {
        push_last(others, all)
    } else {
        all.extend_from_slice(others)
    }
}

/// Appends some cites, of which the last one after a dash is shown.
fn push_last<'a>(cites: &[Arranged<'a>], all: &mut Vec<Arranged<'a>>) -> Result<(), AllocError>
    ensures { OnOk result ((c : Citation)
        → map (arranged_view c) all.new.items ≡ map (arranged_view c) all.old.items
        ++ last_after_dash (map (arranged_view c) cites.now)) }
{
    match cites.split_last() {
        Some((last, inner)) => {
            push_hidden(inner, all)?;
            all.push(after_dash(*last))?;
            Ok(())
        }
        None => Ok(()),
    }
}

fn push_hidden<'a>(cites: &[Arranged<'a>], all: &mut Vec<Arranged<'a>>) -> Result<(), AllocError>
    ensures { OnOk result ((c : Citation) → map (arranged_view c) all.new.items
        ≡ map (arranged_view c) all.old.items ++ map hidden (map (arranged_view c) cites.now)) }
{
    for cite in cites {
        all.push(hidden(*cite))?;
    }
    Ok(())
}

fn hidden<'a>(cite: Arranged<'a>) -> Arranged<'a>
    ensures { (c : Citation) → arranged_view c result ≡ hidden (arranged_view c cite.entry) }
{
    Arranged {
        is_shown: false,
        ..cite
    }
}

fn after_dash<'a>(cite: Arranged<'a>) -> Arranged<'a>
    ensures { (c : Citation) → arranged_view c result ≡ after_dash (arranged_view c cite.entry) }
{
    Arranged {
        before: Before::Dash,
        ..cite
    }
}
