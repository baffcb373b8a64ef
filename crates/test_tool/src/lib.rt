//! The tests of patterns, of plans and checks, and of the tool, over the public calls. They are a crate of their own so that they are
//! proved without proving these once more.
#![tactic(auto)]

#[cfg(test)]
mod tests;
