//! Slots of names, by which most names that are not there are recognised without a search.

ghost use Rattle.std.specs.Prelude.{◌≡◌, ◌==◌, ◌<◌, ◌||◌, ℕ, false, List};
ghost use Rattle.biblatex_fields.specs.Slots.{slot, is_marked};

/// Which slots are marked. Names that share a slot are not distinguished.
#[derive(Clone, Copy)]
pub(crate) struct Slots {
    /// One bit a slot.
    marks: u64,
}

impl Slots {
    /// Slots of which none is marked.
    pub fn new() -> Slots
        ensures { (q : List ℕ) → is_marked result.marks q ≡ false }
    {
        Slots { marks: 0 }
    }

    /// Whether the slot of the name is marked.
    #[inline(always)]
    pub fn is_marked(&self, name: &str) -> bool
        ensures { result ≡ is_marked self.now.marks name.now }
    {
        (self.marks >> slot_of(name)) & 1 == 1
    }

    /// Marks the slot of the name.
    pub fn mark(&mut self, name: &str)
        ensures { (q : List ℕ)
            → is_marked self.new.marks q ≡ (slot q == slot name.now || is_marked self.old.marks q) }
    {
        self.marks |= 1 << slot_of(name);
    }
}

/// The slot of the name, from its length, its first byte and its last.
#[inline(always)]
fn slot_of(name: &str) -> usize
    ensures slot { result ≡ slot name.now }
    ensures below { result < 64 }
{
    let bytes = name.as_bytes();
    let first = bytes.first().copied().unwrap_or(0);
    let last = bytes.last().copied().unwrap_or(0);
    (bytes.len() % 16 * 20 + usize::from(first) + usize::from(last) * 2) % 64
}
