//! The digits of two numbers side by side.

ghost use Rattle.std.specs.Prelude.{◌≡◌, ◌++◌, ◌==◌, length, nat_eq, not, count_by, zip, IfOk, OnOk};
ghost use Rattle.std.specs.Fmt.{decimal};
ghost use Rattle.std.specs.List.{common_prefix_len};
ghost use Rattle.laws.specs.Text.{characters};
ghost use Rattle.rendering_ranges.specs.Digits.{changing, last_digits, three_of_four};

use std::alloc::{AllocError, Global};
use texts::push_character;

/// The digits of a number.
pub(crate) fn digits(alloc: Global, number: u64) -> Result<Vec<char>, AllocError>
    ensures { IfOk result (λ v. v.items ≡ decimal number) }
{
    let text = number.to_string(alloc)?;
    text.chars().collect(alloc)
}

/// How many last digits of the second number change.
pub(crate) fn changing(first: &[char], second: &[char]) -> usize
    ensures { result ≡ changing first.now second.now }
{
    if first.len() != second.len() {
        return second.len();
    }
    second.len() - common_front(first, second)
}

/// How many digits two numbers of as many begin with in common.
fn common_front(first: &[char], second: &[char]) -> usize
    requires { length first.now ≡ length second.now }
    ensures { result ≡ common_prefix_len nat_eq first.now second.now }
{
    for (i, digit) in first.iter().enumerate() {
        if *digit != second[i] {
            return i;
        }
    }
    first.len()
}

/// Whether three digits of four differ.
pub(crate) fn three_of_four(first: &[char], second: &[char]) -> bool
    ensures { result ≡ three_of_four first.now second.now }
{
    second.len() == 4 && differing(first, second) == 3
}

/// How many digits differ, place by place.
fn differing(first: &[char], second: &[char]) -> usize
    ensures { result ≡ count_by (λ d. not (d.0 == d.1)) (zip first.now second.now) }
{
    first.iter().zip(second).filter(|(d, e)| **d != **e).count()
}

/// Appends the last digits, so many or all.
pub(crate) fn push_last(out: &mut String, digits: &[char], count: usize) -> Result<(), AllocError>
    ensures { OnOk result (characters out.new
        ≡ characters out.old ++ last_digits count digits.now) }
{
    push_digits(out, &digits[digits.len().saturating_sub(count)..])
}

/// Appends digits.
pub(crate) fn push_digits(out: &mut String, digits: &[char]) -> Result<(), AllocError>
    ensures { OnOk result (characters out.new ≡ characters out.old ++ digits.now) }
{
    for digit in digits {
        push_character(out, *digit)?;
    }
    Ok(())
}
