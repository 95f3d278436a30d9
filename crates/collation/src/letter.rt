//! Letters that are sorted among others.

ghost use Rattle.std.specs.Prelude.{◌≡◌};
ghost use Rattle.collation.specs.Letters.{after_letter, first_filled, letters_for, ligature, stroked};

/// The letters by which a folded one is sorted; none where it is sorted by itself.
#[tactic(auto, unfolding(crate::specs::Letters::letters_for))]
pub(crate) fn letters_for(c: char) -> &'static [char]
    ensures { result.now ≡ letters_for c }
{
    first_filled(stroked(c), first_filled(ligature(c), after_letter(c)))
}

/// The first text, or the other one where that is empty.
fn first_filled<'t>(first: &'t [char], other: &'t [char]) -> &'t [char]
    ensures { result.now ≡ first_filled first.now other.now }
{
    match first {
        [] => other,
        _ => first,
    }
}

/// Letters with a stroke, a dot or another form, sorted as those without.
fn stroked(c: char) -> &'static [char]
    ensures { result.now ≡ stroked c }
{
    match c {
        'đ' => &['d'],
        'ð' => &['d'],
        'ħ' => &['h'],
        'ŀ' => &['l'],
        'ł' => &['l'],
        'ø' => &['o'],
        _ => &[],
    }
}

/// Two letters in one, sorted as both.
fn ligature(c: char) -> &'static [char]
    ensures { result.now ≡ ligature c }
{
    match c {
        'æ' => &['a', 'e'],
        'ǆ' => &['d', 'z'],
        'ǳ' => &['d', 'z'],
        'ĳ' => &['i', 'j'],
        'ǉ' => &['l', 'j'],
        'ǌ' => &['n', 'j'],
        'œ' => &['o', 'e'],
        _ => &[],
    }
}

/// Letters that stand after all that begins with another one: that one, and the last of all characters.
fn after_letter(c: char) -> &'static [char]
    ensures { result.now ≡ after_letter c }
{
    match c {
        'ı' => &['i', '\u{10ffff}'],
        'ŋ' => &['n', '\u{10ffff}'],
        'ĸ' => &['q', '\u{10ffff}'],
        'ŧ' => &['t', '\u{10ffff}'],
        _ => &[],
    }
}
