//! Options, and the words that give them.

ghost use Rattle.std.specs.Prelude.{◌≡◌, ◌↔◌, Some, IfSome, string_bytes};
ghost use Rattle.std.specs.List.{list_any};
ghost use Rattle.std.specs.Str.{bytes_eq};
ghost use Rattle.sb_words.specs.Options.{AreOptions, AreInRange, defaults, with_setting};
ghost use Rattle.sb_words.specs.Texts.{texts};
ghost use Rattle.sb_words.specs.Words.{AreSizesAlone};

use crate::setting::{Setting, first_setting};

/// The most threads that may work.
pub const MAX_WORKERS: u32 = 64;

/// The most bundles that may be allowed to wait, or to be out, in the lane of a source.
pub const MAX_PENDING: u32 = 1_024;

/// How many threads work if no `--workers` is given.
pub const DEFAULT_WORKERS: u32 = 1;

/// The most records of a bundle if no `--bundle` is given.
pub const DEFAULT_BUNDLE: u32 = 1_024;

/// The most bundles that wait or are out in the lane of a source if no `--pending` is given.
pub const DEFAULT_PENDING: u32 = 256;

/// How the engine is to do what is asked for.
#[derive(Clone, Copy, Debug, PartialEq, Eq)]
pub struct Options {
    /// How many threads work, 1 to [`MAX_WORKERS`].
    pub workers: u32,
    /// The most records of a bundle, 1 to [`sb_bundle::MAX_BUNDLE`].
    pub bundle: u32,
    /// The most bundles that wait or are out in the lane of a source, 1 to [`MAX_PENDING`].
    pub pending: u32,
    /// Whether the diaries are kept and written.
    pub diary: bool,
    /// Whether each row is offered to the taps.
    pub taps: bool,
}

impl Default for Options {
    ghost is_default = { λ options. options ≡ defaults };

    /// The options if none is given.
    fn default() -> Options {
        Options {
            workers: DEFAULT_WORKERS,
            bundle: DEFAULT_BUNDLE,
            pending: DEFAULT_PENDING,
            diary: false,
            taps: false,
        }
    }
}

impl Options {
    /// The same options with this one set.
    pub(crate) fn with(self, setting: Setting) -> Options
        ensures { result ≡ with_setting setting self }
    {
        match setting {
            Setting::Workers(workers) => Options { workers, ..self },
            Setting::Bundle(bundle) => Options { bundle, ..self },
            Setting::Pending(pending) => Options { pending, ..self },
            Setting::Diary => Options {
                diary: true,
                ..self
            },
            Setting::Taps => Options { taps: true, ..self },
        }
    }
}

/// Whether one of the words is this one.
fn has_word(words: &[String], wanted: &str) -> bool
    ensures { result ≡ list_any (λ word. bytes_eq wanted.now (string_bytes word)) words.now }
{
    words.iter().any(|word| wanted == word.as_str())
}

/// The options that all of these words give, if they are options.
pub(crate) fn read_options(words: &[String]) -> Option<Options>
    ensures exact { (options : Options) → (result ≡ Some options) ↔ AreOptions options (texts words.now) }
    ensures valid { IfSome result (λ options. AreInRange options) }
{
    if words.is_empty() {
        return Some(Options::default());
    }
    let (setting, rest) = first_setting(words)?;
    if has_word(rest, setting.name()) {
        return None;
    }
    let options = read_options(rest)?;
    Some(options.with(setting))
}

/// The options that all of these words give, if they are options that set sizes alone.
pub(crate) fn read_sizes(words: &[String]) -> Option<Options>
    ensures exact { (options : Options) → (result ≡ Some options)
        ↔ (AreOptions options (texts words.now) × AreSizesAlone options) }
    ensures valid { IfSome result (λ options. AreInRange options × AreSizesAlone options) }
{
    let options = read_options(words)?;
    if options.diary || options.taps {
        return None;
    }
    Some(options)
}
