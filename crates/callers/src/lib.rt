// Calls from outside, run as tests: of seven steps of crates domain and normal that no other crate here calls.
// Assumes nothing.
#![tactic(auto)]

#[cfg(test)]
mod branches;
#[cfg(test)]
mod standings;

#[cfg(test)]
use std::test::Fail;

// A test fails with the words where they are not so.
#[cfg(test)]
fn told(words: &'static str, so: bool) -> Result<(), Fail> {
    so.then_some(()).ok_or(words)?;
    Ok(())
}
