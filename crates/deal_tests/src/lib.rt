//! Tests of what the members of a group are given of captures.
#![tactic(auto)]

#[cfg(test)]
mod dealt_captures;
