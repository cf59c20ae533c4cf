//! The tests of the engine, of the marks that its threads share, and of what they count.
#![tactic(auto)]

#[cfg(test)]
mod counts;
#[cfg(test)]
mod equal;
#[cfg(test)]
mod keeping;
#[cfg(test)]
mod marks;
#[cfg(test)]
mod tests;
