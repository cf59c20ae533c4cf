ghost use Rattle.std.specs.Prelude.{◌≡◌, ◌==◌, ◌<◌, ◌&&◌, ◌||◌, ◌≢◌, [], ◌∷◌, codes, length, nat_lt, slice_index, decimal, IfSome, MatchOption};
ghost use Rattle.std.specs.List.{list_all};
ghost use Rattle.std.specs.Option.{SomeIff, option_copied};
ghost use Rattle.std.specs.Str.Parse.{digits_value};
ghost use Rattle.mvo_script.specs.line.Words.{is_name_byte, is_hex_byte, IsName, IsNumber, IsDataOf, IsHex};
ghost use Rattle.mvo_script.specs.line.Readable.{IsNoCall};
ghost use Rattle.mvo_script.specs.line.Written.{call_words, data_word};

use mvo_store::{Due, InstallStep, StoreCall};

/// The most letters of a name.
pub const MAX_NAME_LEN: usize = 16;

/// The name that a word is: 1 to 16 of a to z and 0 to 9.
pub fn name_of(word: &str) -> Option<&str>
    ensures { SomeIff (option_copied result) (IsName word.now) word.now }
{
    if !word.is_empty() && word.len() <= MAX_NAME_LEN && is_of_name_bytes(word) {
        Some(word)
    } else {
        None
    }
}

/// Whether each byte is one of a to z and 0 to 9.
fn is_of_name_bytes(word: &str) -> bool
    ensures { result ≡ list_all is_name_byte word.now }
{
    word.as_bytes()
        .iter()
        .all(|byte| matches!(*byte, b'a'..=b'z' | b'0'..=b'9'))
}

/// The number that a word is: decimal, without a sign, without leading zeros, and below 2^64.
pub fn number_of(word: &str) -> Option<u64>
    ensures value { SomeIff result (IsNumber 64 word.now) (digits_value 10 word.now) }
    ensures text { IfSome result (λ n. decimal n ≡ word.now) }
{
    if has_plus_or_zero(word) {
        None
    } else {
        word.parse::<u64>().ok()
    }
}

/// The place of a pair that a word is: a number.
pub fn place_of(word: &str) -> Option<usize>
    ensures value { SomeIff result (IsNumber 64 word.now) (digits_value 10 word.now) }
    ensures text { IfSome result (λ n. decimal n ≡ word.now) }
{
    if has_plus_or_zero(word) {
        None
    } else {
        word.parse::<usize>().ok()
    }
}

/// The table that a word is: a number of at most 255.
pub fn table_of(word: &str) -> Option<u8>
    ensures value { SomeIff result (IsNumber 8 word.now) (digits_value 10 word.now) }
    ensures text { IfSome result (λ n. decimal n ≡ word.now) }
{
    if has_plus_or_zero(word) {
        None
    } else {
        word.parse::<u8>().ok()
    }
}

/// Whether a word begins with a plus, or with a zero that isn't all of it.
fn has_plus_or_zero(word: &str) -> bool
    ensures { result ≡ (slice_index word.now 0 == 43
        || (slice_index word.now 0 == 48 && nat_lt 1 (length word.now))) }
{
    let bytes = word.as_bytes();
    !bytes.is_empty() && (bytes[0] == b'+' || (bytes[0] == b'0' && bytes.len() > 1))
}

/// The digits of the data that a word is: an even number of lower-case hexadecimal digits, or `-`
/// for none.
pub fn digits_of(word: &str) -> Option<&str>
    ensures data { MatchOption result (word.now ≢ codes "-" × ¬ IsHex word.now)
        (λ d. IsDataOf word.now d.now) }
    ensures text { IfSome result (λ d. data_word d.now ≡ word.now) }
{
    if word == "-" {
        Some("")
    } else if !word.is_empty() && word.len() % 2 == 0 && is_of_hex_bytes(word) {
        Some(word)
    } else {
        None
    }
}

/// Whether each byte is one of 0 to 9 and a to f.
fn is_of_hex_bytes(word: &str) -> bool
    ensures { result ≡ list_all is_hex_byte word.now }
{
    word.as_bytes()
        .iter()
        .all(|byte| matches!(*byte, b'0'..=b'9' | b'a'..=b'f'))
}

/// The call of the store that a word asks for. A merge's reading isn't one, which has a number.
pub fn call_of(word: &str) -> Option<StoreCall>
    ensures { MatchOption result (IsNoCall word.now) (λ call. call_words call ≡ word.now ∷ []) }
{
    match word {
        "body" => Some(StoreCall::AppendBody),
        "open" => Some(StoreCall::AppendOpen),
        "rotate-write" => Some(StoreCall::RotateWrite),
        "checkpoint-read" => Some(StoreCall::CheckpointRead),
        "checkpoint-data" => Some(StoreCall::Step(Due::Data)),
        "checkpoint-delta" => Some(StoreCall::Step(Due::Delta)),
        "merge-data" => Some(StoreCall::Step(Due::MergeData)),
        "merge-delta" => Some(StoreCall::Step(Due::MergeDelta)),
        "install-close" => Some(StoreCall::Step(Due::Install(InstallStep::Close))),
        "install-body" => Some(StoreCall::Step(Due::Install(InstallStep::Body))),
        "install-open" => Some(StoreCall::Step(Due::Install(InstallStep::Open))),
        "reclaim" => Some(StoreCall::Reclaim),
        _ => None,
    }
}
