//! Cites and bibliographies in the order of their styles' sort keys, for callers of a driver: the order of the entries of a bibliography, and
//! requests with their items in order.
#![tactic(auto)]

mod cites;
mod entry_keys;
mod numbers;
mod order;
mod order_laws;
mod requests;
mod sort_keys;

pub use order::bibliography_order;
pub use order_laws::{entries_without_keys_stay, requests_without_keys_stay};
pub use requests::sorted_requests;
