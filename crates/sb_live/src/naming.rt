//! Keys by their text.

ghost use Rattle.std.specs.Prelude.{◌≡◌};
ghost use Rattle.sb_emit.specs.records.Reading.{whole_number};
ghost use Rattle.sb_live.specs.Naming as spec;

use sb_emit::{Key, Keys, MAX_KEY, Word, read_number};

// The number with this text, if it may be a key.
fn number_named(text: &[u8]) -> Option<u64>
    ensures { result ≡ whole_number MAX_KEY text.now }
{
    read_number(MAX_KEY, text)
}

/// The key with this text, where keys are numbers or words: none if no line can give such a key.
pub fn key_named(keys: Keys, text: &[u8]) -> Option<Key>
    ensures { result ≡ spec.key_named keys text.now }
{
    match keys {
        Keys::Numbers => number_named(text).map(Key::Number),
        Keys::Words => Word::new(text).map(Key::Word),
    }
}
