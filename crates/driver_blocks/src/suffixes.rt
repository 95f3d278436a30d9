//! Year suffixes that are collapsed.

ghost use Rattle.std.specs.Prelude.{◌≡◌, ◌++◌, OnOk, map};
ghost use Rattle.std.specs.Option.{option_map};
ghost use Rattle.rendering_style.specs.Styles.{Citation};
ghost use Rattle.driver_requests.specs.SuffixViews.{suffix_view};
ghost use Rattle.driver_blocks.specs.Collapsing.{continues, is_next_suffix, is_suffix_alone, shown_suffix, suffixes_collapsed};
ghost use Rattle.driver_blocks.specs.Runs.{collapsed_run};
ghost use Rattle.driver_blocks.specs.Views.{arranged_view, undelimited};

use crate::cite::Arranged;
use crate::runs::push_run;
use driver_requests::Suffix;
use rendering_taxonomy::CollapseVerdict;
use std::alloc::AllocError;

/// Appends a block in which year suffixes one after the other are collapsed.
pub(crate) fn push_suffixes<'a>(
    cites: &[Arranged<'a>],
    all: &mut Vec<Arranged<'a>>,
) -> Result<(), AllocError>
    ensures { OnOk result ((c : Citation)
        → map (arranged_view c) all.new.items ≡ map (arranged_view c) all.old.items
        ++ suffixes_collapsed (map (arranged_view c) cites.now)) }
{
    for run in cites.chunk_by(|last, cite| continues(last, cite)) {
        push_suffix_run(run, all)?;
    }
    Ok(())
}

/// Appends a run of year suffixes.
fn push_suffix_run<'a>(run: &[Arranged<'a>], all: &mut Vec<Arranged<'a>>) -> Result<(), AllocError>
    ensures { OnOk result ((c : Citation) → map (arranged_view c) all.new.items
        ≡ map (arranged_view c) all.old.items ++ collapsed_run (map (arranged_view c) run.now)) }
{
    match run.split_first() {
        Some((first, others)) => push_run(*first, others, all),
        None => Ok(()),
    }
}

/// Whether a cite continues a run of year suffixes: its year suffix alone is left, and comes next after that of the cite before it.
fn continues(last: &Arranged, cite: &Arranged) -> bool
    ensures { result ≡ continues (undelimited last.now) (undelimited cite.now) }
{
    is_suffix_alone(cite.verdict) && is_next_suffix(shown_suffix(last), shown_suffix(cite))
}

/// Whether of a cite the year suffix alone is left.
fn is_suffix_alone(verdict: Option<CollapseVerdict>) -> bool
    ensures { result ≡ is_suffix_alone verdict }
{
    matches!(verdict, Some(CollapseVerdict::YearSuffix))
}

/// The year suffix of a cite that is shown without a locator.
fn shown_suffix(cite: &Arranged) -> Option<Suffix>
    ensures { option_map suffix_view result ≡ shown_suffix (undelimited cite.now) }
{
    if cite.is_shown && !cite.cite.has_locator {
        cite.cite.suffix
    } else {
        None
    }
}

/// Whether a year suffix comes next after another one that the same class got in the same round.
fn is_next_suffix(last: Option<Suffix>, suffix: Option<Suffix>) -> bool
    ensures { result
        ≡ is_next_suffix (option_map suffix_view last) (option_map suffix_view suffix) }
{
    match (last, suffix) {
        (Some(last), Some(suffix)) => {
            last.index < suffix.index
                && suffix.index - last.index == 1
                && last.origin.round == suffix.origin.round
                && last.origin.class == suffix.origin.class
        }
        _ => false,
    }
}
