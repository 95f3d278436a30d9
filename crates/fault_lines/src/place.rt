//! Where a byte of a source stands, counted onward from byte to byte.

ghost use Rattle.std.specs.Prelude.{◌≡◌, ◌<◌, ◌≤◌, ◌+◌, ◌^◌, ℕ, List, min, length, if◌then◌else◌};
ghost use Rattle.fault_lines.specs.Places.{IsPlace, begins_character, next_place};
ghost use Rattle.fault_lines.specs.Views.{place_view};

/// A place in a source.
#[derive(Clone, Copy)]
pub struct Place {
    /// The number of its line, from one.
    pub(crate) number: usize,
    /// Where that line begins.
    pub(crate) start: usize,
    /// How many characters of the line begin before the place.
    pub(crate) begun: usize,
    /// How many bytes of the source come before the place.
    pub(crate) at: usize,
}

impl Place {
    /// The beginning of any source.
    pub fn beginning() -> Place
        ensures { (source : List ℕ) → IsPlace source (place_view result) }
    {
        Place {
            number: 1,
            start: 0,
            begun: 0,
            at: 0,
        }
    }

    /// The place after so many bytes of the source, or its end: counted onward from this one, if that does not come after it, or else
    /// from the beginning.
    pub fn moved_to(self, source: &[u8], at: usize) -> Place
        requires { IsPlace source.now (place_view self) }
        ensures place { IsPlace source.now (place_view result) }
        ensures at { result.at ≡ min at (length source.now) }
    {
        if self.at <= at {
            self.onward(source, at)
        } else {
            Place::beginning().onward(source, at)
        }
    }

    /// The place after so many bytes of the source, or its end, which does not come before this one.
    fn onward(self, source: &[u8], at: usize) -> Place
        requires before { self.at ≤ at }
        requires place { IsPlace source.now (place_view self) }
        ensures place { IsPlace source.now (place_view result) }
        ensures at { result.at ≡ min at (length source.now) }
    {
        let mut place = self;
        while place.at < at && place.at < source.len() {
            place = place.past(source[place.at]);
        }
        place
    }

    /// The place after one more byte.
    fn past(self, byte: u8) -> Place
        requires number { self.number ≤ self.at + 1 }
        requires begun { self.begun ≤ self.at }
        requires small { self.at < 2 ^ 63 }
        ensures { place_view result ≡ next_place (place_view self) byte }
    {
        let at = self.at + 1;
        if byte == b'\n' {
            Place {
                number: self.number + 1,
                start: at,
                begun: 0,
                at,
            }
        } else {
            Place {
                number: self.number,
                start: self.start,
                begun: begun_with(self.begun, byte),
                at,
            }
        }
    }
}

/// How many characters have begun after one more byte.
fn begun_with(begun: usize, byte: u8) -> usize
    requires { begun < 2 ^ 63 }
    ensures { result ≡ begun + (if begins_character byte then 1 else 0) }
{
    if begins_character(byte) {
        begun + 1
    } else {
        begun
    }
}

/// Whether the byte begins a character.
fn begins_character(byte: u8) -> bool
    ensures { result ≡ begins_character byte }
{
    !matches!(byte, 0x80..=0xbf)
}
