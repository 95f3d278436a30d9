//! Which numbers reach themselves, and an order of all.

ghost use Rattle.std.specs.Prelude.{◌≡◌, ◌<◌, ℕ, true, false, IfOk, MatchOption};
ghost use Rattle.reference_graph.specs.Order.{is_marked, MarksCircular, IsOrder};
ghost use Rattle.reference_graph.specs.References.{lists};

use crate::search::Search;
use std::alloc::{AllocError, Global};
use std::marker::Model;

/// Which numbers reach themselves, and an order of all.
#[derive(Drop)]
pub struct ReferenceOrder {
    circular: Vec<bool>,
    order: Vec<usize>,
}

impl Model for ReferenceOrder {
    ghost use Rattle.reference_graph.specs.Order.{Arranged};

    ghost Value = { Arranged };

    ghost view = { λ o. record { circular = o.circular.items; order = o.order.items } };
}

impl ReferenceOrder {
    /// Whether the number reaches itself by one reference or more; a number that there is not does not.
    pub fn is_circular(&self, i: usize) -> bool
        ensures { result ≡ is_marked self.now.circular i }
    {
        match self.circular.get(i) {
            Some(circular) => *circular,
            None => false,
        }
    }

    /// The least number that reaches itself.
    pub fn first_circular(&self) -> Option<usize>
        ensures { MatchOption result ((i : ℕ) → is_marked self.now.circular i ≡ false) (λ i.
            (is_marked self.now.circular i ≡ true)
            × ((k : ℕ) → k < i → is_marked self.now.circular k ≡ false)) }
    {
        self.circular.iter().position(|circular| *circular)
    }

    /// Each number below the length once, each that is not circular after all numbers that it refers to; beyond this in any order.
    pub fn order(&self) -> &[usize]
        ensures { result.now ≡ self.now.order }
    {
        &self.order
    }
}

/// Which numbers reach themselves, and an order of all. `references[i]` are the numbers that `i` refers to; one that is not
/// below the length refers to nothing and is passed over. The cost grows with the numbers and the references together.
pub fn reference_order(
    alloc: Global,
    references: &[Vec<usize>],
) -> Result<ReferenceOrder, AllocError>
    ensures circular { IfOk result (λ o. MarksCircular (lists references.now) o.circular) }
    ensures order { IfOk result (λ o. IsOrder (lists references.now) o.order) }
{
    let mut search = Search::new(alloc, references)?;
    for number in 0..references.len() {
        search.visit(references, number)?;
    }
    Ok(ReferenceOrder {
        circular: search.circular,
        order: search.order,
    })
}
