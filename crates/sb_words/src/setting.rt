//! One option, as it stands among the words.

ghost use Rattle.std.specs.Prelude.{◌≡◌, ◌≢◌, ◌≤◌, ◌<◌, ◌↔◌, ◌∷◌, ◌++◌, [], ℕ, List, Some, None, IfSome, decimal, length};
ghost use Rattle.sb_words.specs.Options.{IsSetting, name_of, words_of_option};
ghost use Rattle.sb_words.specs.Texts.{texts};

use crate::options::{MAX_PENDING, MAX_WORKERS};
use sb_bundle::MAX_BUNDLE;
use sb_window::read_number;

/// An option that is given, with its value.
#[derive(Clone, Copy, Debug, PartialEq, Eq)]
pub enum Setting {
    /// `--workers N`.
    Workers(u32),
    /// `--bundle B`.
    Bundle(u32),
    /// `--pending P`.
    Pending(u32),
    /// `--diary`.
    Diary,
    /// `--taps`.
    Taps,
}

impl Setting {
    /// The word that names the option.
    pub(crate) fn name(self) -> &'static str
        ensures { result.now ≡ name_of self }
    {
        match self {
            Setting::Workers(_) => "--workers",
            Setting::Bundle(_) => "--bundle",
            Setting::Pending(_) => "--pending",
            Setting::Diary => "--diary",
            Setting::Taps => "--taps",
        }
    }
}

/// The number, from 1 to `most`, that a word spells.
pub fn read_count(most: u32, word: &str) -> Option<u32>
    ensures { (n : ℕ) → (result ≡ Some n) ↔ ((1 ≤ n) × (n ≤ most) × (word.now ≡ decimal n)) }
{
    let number = read_number(u64::from(most), word.as_bytes())?;
    if number == 0 {
        None
    } else {
        Some(number as u32)
    }
}

/// The option of this name that has no value.
fn flag_of(name: &str) -> Option<Setting>
    ensures some { IfSome result (λ flag. IsSetting flag × (name.now ∷ [] ≡ words_of_option flag)) }
    ensures none { result ≡ None → (setting : Setting) → name.now ∷ [] ≢ words_of_option setting }
{
    if name == "--diary" {
        return Some(Setting::Diary);
    }
    if name == "--taps" {
        return Some(Setting::Taps);
    }
    None
}

/// The option of this name that has this value.
fn valued(name: &str, value: &str) -> Option<Setting>
    ensures some { IfSome result
        (λ setting. IsSetting setting × (name.now ∷ value.now ∷ [] ≡ words_of_option setting)) }
    ensures none { result ≡ None → (setting : Setting) → IsSetting setting
        → name.now ∷ value.now ∷ [] ≢ words_of_option setting }
{
    if name == "--workers" {
        let workers = read_count(MAX_WORKERS, value)?;
        return Some(Setting::Workers(workers));
    }
    if name == "--bundle" {
        let bundle = read_count(MAX_BUNDLE, value)?;
        return Some(Setting::Bundle(bundle));
    }
    if name == "--pending" {
        let pending = read_count(MAX_PENDING, value)?;
        return Some(Setting::Pending(pending));
    }
    None
}

/// The option at the front of the words, and the words behind it.
pub(crate) fn first_setting(words: &[String]) -> Option<(Setting, &[String])>
    ensures some { IfSome result (λ x. IsSetting x.0
        × (texts words.now ≡ words_of_option x.0 ++ texts x.1.now) × (length x.1.now < length words.now)) }
    ensures none { result ≡ None → (setting : Setting) (rest : List (List ℕ)) → IsSetting setting
        → texts words.now ≢ words_of_option setting ++ rest }
{
    let (name, rest) = words.split_first()?;
    match flag_of(name.as_str()) {
        Some(flag) => Some((flag, rest)),
        None => first_valued(name.as_str(), rest),
    }
}

/// The option of this name whose value is the first of the words, and the words behind it.
fn first_valued<'a>(name: &str, words: &'a [String]) -> Option<(Setting, &'a [String])>
    ensures some { IfSome result (λ x. IsSetting x.0
        × (name.now ∷ texts words.now ≡ words_of_option x.0 ++ texts x.1.now) × (length x.1.now < length words.now)) }
    ensures none { result ≡ None → ((setting : Setting) → name.now ∷ [] ≢ words_of_option setting)
        → (setting : Setting) (rest : List (List ℕ)) → IsSetting setting
        → name.now ∷ texts words.now ≢ words_of_option setting ++ rest }
{
    let (value, rest) = words.split_first()?;
    let setting = valued(name, value.as_str())?;
    Some((setting, rest))
}
