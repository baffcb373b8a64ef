//! The tests of `ctd_source` and of `ctd_value`, over their public calls. They are a crate of their own so that they are
//! proved without proving the cursor, expressions and the store once more.
#![tactic(auto)]

#[cfg(test)]
mod tests;
