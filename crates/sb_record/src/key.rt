//! Keys: what a record is about, a number or a word.

ghost use Rattle.std.specs.Prelude.{◌≡◌, ◌==◌, Some, None, IsTrue, if◌then◌else◌, refl};
ghost use Rattle.std.specs.Cmp.{partial_equiv_from_equiv, partial_order_from_total, eq_by_cmp_equiv};
ghost use Rattle.std.specs.Cmp.Lexicographic.{nat_list_cmp_total};
ghost use Rattle.std.specs.List.{list_all, position, position_or_len};
ghost use Rattle.std.specs.Ordering.{eq_by_cmp, as_partial_cmp};
ghost use Rattle.sb_record.specs.Keys.{key_cmp, same_key};
ghost use Rattle.sb_record.specs.Words.{word_cmp};
ghost use Rattle.sb_record.specs.Words as spec;
ghost use Rattle.sb_record.specs.KeyOrder.{key_cmp_total};

use std::cmp::Ordering;
use std::marker::Model;

/// The greatest key of a record of an input whose keys are numbers.
pub const MAX_KEY: u64 = 1_000_000_000_000_000_000;

/// The most bytes of a word.
pub const MAX_WORD_LENGTH: usize = 24;

/// What the keys of an input are.
#[derive(Clone, Copy, Debug, PartialEq, Eq)]
pub enum Keys {
    /// Numbers, at most [`MAX_KEY`].
    Numbers,
    /// Words.
    Words,
}

/// A word: 1 to 24 bytes, each from 0x21 to 0x7E and none of them a comma or a double quote. Words are ordered by their
/// bytes, a proper prefix first.
#[derive(Clone, Copy, Debug)]
pub struct Word {
    /// Those of the word, and zeros behind them.
    bytes: [u8; MAX_WORD_LENGTH],
}

impl Model for Word {
    ghost use Rattle.std.specs.Prelude.{ℕ, List};
    ghost use Rattle.sb_record.specs.Words.{IsPaddedWord, word_with_zeros, word_before_zeros};

    ghost Value = { List ℕ };

    ghost view = { λ w. word_before_zeros w.bytes };

    ghost invariant = { λ w. IsPaddedWord w.bytes };

    ghost inverse = { λ word. record { bytes = word_with_zeros word } };

    ghost inverse_ok = { λ w held i. record { bytes = held.zeros i } };
}

/// Whether a word may have this byte.
fn is_word_byte(byte: u8) -> bool
    ensures { result ≡ spec.is_word_byte byte }
{
    byte.is_ascii_graphic() && byte != b',' && byte != b'"'
}

/// Whether a word may have these bytes.
fn are_word_bytes(bytes: &[u8]) -> bool
    ensures { result ≡ list_all spec.is_word_byte bytes.now }
{
    bytes.iter().all(|byte| is_word_byte(*byte))
}

/// Whether the bytes are a word.
fn is_word(bytes: &[u8]) -> bool
    ensures { result ≡ spec.is_word bytes.now }
{
    1 <= bytes.len() && bytes.len() <= MAX_WORD_LENGTH && are_word_bytes(bytes)
}

/// Where this byte first stands, if it does.
fn first_place(byte: u8, bytes: &[u8]) -> Option<usize>
    ensures { result ≡ position (λ b. b == byte) bytes.now }
{
    bytes.iter().position(|other| *other == byte)
}

/// How many bytes stand before the first that is this one: all of them where none is.
#[tactic(auto, using(crate::proofs::WordBytes::position_or_end))]
pub(crate) fn length_before(byte: u8, bytes: &[u8]) -> usize
    ensures { result ≡ position_or_len (λ b. b == byte) bytes.now }
{
    first_place(byte, bytes).unwrap_or(bytes.len())
}

impl Word {
    /// The word of these bytes, where they are one.
    pub fn new(bytes: &[u8]) -> Option<Word>
        ensures { result ≡ (if spec.is_word bytes.now then Some bytes.now else None) }
    {
        if !is_word(bytes) {
            return None;
        }
        let mut word = [0; MAX_WORD_LENGTH];
        word[..bytes.len()].copy_from_slice(bytes);
        Some(Word { bytes: word })
    }

    /// The bytes of the word.
    pub fn as_slice(&self) -> &[u8]
        ensures bytes { result.now ≡ self.now }
        ensures word { IsTrue (spec.is_word self.now) }
    {
        &self.bytes[..length_before(0, &self.bytes)]
    }
}

impl PartialEq for Word {
    ghost eq = { eq_by_cmp word_cmp };

    ghost laws = { partial_equiv_from_equiv (eq_by_cmp_equiv nat_list_cmp_total) };

    #[inline(never)]
    fn eq(&self, other: &Word) -> bool {
        self.bytes == other.bytes
    }
}

impl Eq for Word {
    ghost laws = { eq_by_cmp_equiv nat_list_cmp_total };
}

impl PartialOrd for Word {
    ghost partial_cmp = { as_partial_cmp word_cmp };

    ghost laws = { partial_order_from_total nat_list_cmp_total };

    fn partial_cmp(&self, other: &Word) -> Option<Ordering> {
        Some(self.cmp(other))
    }
}

impl Ord for Word {
    ghost cmp = { word_cmp };

    ghost total = { nat_list_cmp_total };

    ghost matches_partial_cmp = { λ v w. refl };

    ghost matches_eq = { λ v w. refl };

    #[inline(never)]
    fn cmp(&self, other: &Word) -> Ordering {
        self.bytes.cmp(&other.bytes)
    }
}

/// What a record is about: a number or a word. Numbers are ordered by value and stand before words.
#[derive(Clone, Copy, Debug)]
pub enum Key {
    Number(u64),
    Word(Word),
}

impl PartialEq for Key {
    ghost eq = { same_key };

    ghost laws = { partial_equiv_from_equiv (eq_by_cmp_equiv key_cmp_total) };

    #[inline(always)]
    fn eq(&self, other: &Key) -> bool {
        match (self, other) {
            (Key::Number(a), Key::Number(b)) => a == b,
            (Key::Word(a), Key::Word(b)) => a == b,
            _ => false,
        }
    }
}

impl Eq for Key {
    ghost laws = { eq_by_cmp_equiv key_cmp_total };
}

impl PartialOrd for Key {
    ghost partial_cmp = { as_partial_cmp key_cmp };

    ghost laws = { partial_order_from_total key_cmp_total };

    fn partial_cmp(&self, other: &Key) -> Option<Ordering> {
        Some(self.cmp(other))
    }
}

impl Ord for Key {
    ghost cmp = { key_cmp };

    ghost total = { key_cmp_total };

    ghost matches_partial_cmp = { λ a b. refl };

    ghost matches_eq = { λ a b. refl };

    #[inline(always)]
    fn cmp(&self, other: &Key) -> Ordering {
        match (self, other) {
            (Key::Number(a), Key::Number(b)) => a.cmp(b),
            (Key::Number(_), Key::Word(_)) => Ordering::Less,
            (Key::Word(_), Key::Number(_)) => Ordering::Greater,
            (Key::Word(a), Key::Word(b)) => a.cmp(b),
        }
    }
}
