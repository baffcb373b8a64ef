//! The tests of `ctd_token` and of `ctd_syntax`, over their public calls. They are a crate of their own so that they are
//! proved without proving tokens and the grammar once more.
#![tactic(auto)]

#[cfg(test)]
mod tests;
