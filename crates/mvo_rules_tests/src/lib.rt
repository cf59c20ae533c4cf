//! Tests of the core and of the crates below it.
#![tactic(auto)]

#[cfg(test)]
mod chains;
#[cfg(test)]
mod collecting;
#[cfg(test)]
mod content;
#[cfg(test)]
mod cores;
#[cfg(test)]
mod counts;
#[cfg(test)]
mod dependencies;
#[cfg(test)]
mod engine;
#[cfg(test)]
mod equal;
#[cfg(test)]
mod hash;
#[cfg(test)]
mod keys;
#[cfg(test)]
mod loading;
#[cfg(test)]
mod numbers;
#[cfg(test)]
mod open;
#[cfg(test)]
mod passing;
#[cfg(test)]
mod plain;
#[cfg(test)]
mod queues;
#[cfg(test)]
mod ranges;
#[cfg(test)]
mod rows;
#[cfg(test)]
mod serial;
#[cfg(test)]
mod sorts;
#[cfg(test)]
mod step;
#[cfg(test)]
mod stories;
#[cfg(test)]
mod story;
#[cfg(test)]
mod table;
#[cfg(test)]
mod tale;
#[cfg(test)]
mod tests;
#[cfg(test)]
mod words;
#[cfg(test)]
mod work;
