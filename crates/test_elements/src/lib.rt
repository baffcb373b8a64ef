//! The tests of the facts of elements, over the public calls of `ctd_elements`, `ctd_element_changes`, `ctd_limits` and `ctd_candidates`. They are a
//! crate of their own so that they are proved without proving those once more.
#![tactic(auto)]

#[cfg(test)]
mod tests;
