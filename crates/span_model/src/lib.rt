//! Spans of sets of columns, and the attacks on masked products that they decide: laws that other crates cite.
//!
//! No function here computes anything. Each has an empty body and a contract that is a law about the definitions of `specs/`, for columns of
//! any type; a caller gets the law by a call, which costs nothing.
#![tactic(auto)]

mod attacks;
mod cases;
mod refreshes;
mod spans;

pub use attacks::{
    attack_gives_closure, closure_gives_attack, closures_stay_in_bounds, leaks_are_closed,
};
pub use cases::known_cases;
pub use refreshes::{
    added_columns_do_not_leak, all_refreshed_is_secure, attack_carries_over,
    attack_stays_with_fewer, fresh_lefts_are_secure, left_columns_do_not_leak, needed_stays_needed,
    none_refreshed_is_same, refreshed_is_left_out, refreshed_under_names, renaming_keeps_attacks,
    repair_set_is_least,
};
pub use spans::{
    at_most_as_columns, members_and_sums, rank_is_length, rows_exchange, spans_follow, spans_grow,
};
