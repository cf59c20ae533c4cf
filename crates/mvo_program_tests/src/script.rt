//! Tests of scripts that are kept, of readers and writers that fail, and of texts.
mod fresh;
mod kept;
mod streams;
mod texts;
mod told;
