//! Lists of words, and what they ask for.

use sb_arguments::read_words;
use sb_words::{Options, Request};
use std::alloc::{AllocError, Global};

/// The words of a text, without those that are empty.
fn words_of(alloc: Global, text: &str) -> Result<Vec<String>, AllocError> {
    let mut words = Vec::new(alloc);
    for word in text.split_whitespace() {
        words.push(String::from_str(alloc, word)?)?;
    }
    Ok(words)
}

/// Whether the words of a text ask for this.
fn asks(alloc: Global, text: &str, wanted: Request) -> bool {
    match words_of(alloc, text) {
        Ok(words) => read_words(alloc, words.as_slice()) == Ok(Some(wanted)),
        Err(AllocError) => false,
    }
}

/// Whether the words of a text ask for nothing.
fn asks_for_nothing(alloc: Global, text: &str) -> bool {
    match words_of(alloc, text) {
        Ok(words) => read_words(alloc, words.as_slice()) == Ok(None),
        Err(AllocError) => false,
    }
}

/// The options if none is given.
const NONE: Options = Options {
    workers: 1,
    bundle: 1_024,
    pending: 256,
    diary: false,
    taps: false,
};

#[test]
fn words_that_ask_for_sums(rt: HostRuntime) {
    let alloc = rt.alloc();
    assert!(rt; asks(alloc, "sum 1", Request::Sum(1, NONE)));
    assert!(rt;
        asks(
            alloc,
            "sum 1000000000000",
            Request::Sum(1_000_000_000_000, NONE)
        )
    );
    assert!(rt; asks(alloc, "sum 10 --workers 1", Request::Sum(10, NONE)));
    assert!(rt;
        asks(
            alloc,
            "sum 10 --workers 64",
            Request::Sum(
                10,
                Options {
                    workers: 64,
                    ..NONE
                }
            )
        )
    );
    assert!(rt;
        asks(
            alloc,
            "sum 10 --bundle 1",
            Request::Sum(10, Options { bundle: 1, ..NONE })
        )
    );
    assert!(rt;
        asks(
            alloc,
            "sum 10 --bundle 65536",
            Request::Sum(
                10,
                Options {
                    bundle: 65_536,
                    ..NONE
                }
            )
        )
    );
    assert!(rt;
        asks(
            alloc,
            "sum 10 --pending 1",
            Request::Sum(10, Options { pending: 1, ..NONE })
        )
    );
    assert!(rt;
        asks(
            alloc,
            "sum 10 --pending 1024",
            Request::Sum(
                10,
                Options {
                    pending: 1_024,
                    ..NONE
                }
            )
        )
    );
    assert!(rt;
        asks(
            alloc,
            "sum 10 --workers 1 --bundle 8 --pending 3 --diary --taps",
            Request::Sum(
                10,
                Options {
                    bundle: 8,
                    pending: 3,
                    diary: true,
                    taps: true,
                    ..NONE
                }
            )
        )
    );
}

#[test]
fn words_that_ask_for_a_run_or_a_summary(rt: HostRuntime) {
    let alloc = rt.alloc();
    assert!(rt; asks(alloc, "run p.toml", Request::Run("p.toml", NONE)));
    assert!(rt; asks(alloc, "run sum", Request::Run("sum", NONE)));
    assert!(rt; asks(alloc, "run a--diary", Request::Run("a--diary", NONE)));
    assert!(rt; asks(alloc, "slow p.toml", Request::Slow("p.toml")));
    assert!(rt; asks(alloc, "audit", Request::Audit));
    assert!(rt; asks(alloc, "work 1", Request::Work(1, NONE)));
    assert!(rt; asks(alloc, "work 10000000", Request::Work(10_000_000, NONE)));
    assert!(rt;
        asks(
            alloc,
            "work 8 --bundle 3 --workers 4",
            Request::Work(
                8,
                Options {
                    workers: 4,
                    bundle: 3,
                    ..NONE
                }
            )
        )
    );
    assert!(rt;
        asks(
            alloc,
            "work 8 --pending 2",
            Request::Work(8, Options { pending: 2, ..NONE })
        )
    );
    assert!(rt;
        asks(
            alloc,
            "run p --diary",
            Request::Run(
                "p",
                Options {
                    diary: true,
                    ..NONE
                }
            )
        )
    );
    assert!(rt;
        asks(
            alloc,
            "run p --taps",
            Request::Run("p", Options { taps: true, ..NONE })
        )
    );
    assert!(rt;
        asks(
            alloc,
            "run p --taps --pending 3 --diary --bundle 8 --workers 1",
            Request::Run(
                "p",
                Options {
                    bundle: 8,
                    pending: 3,
                    diary: true,
                    taps: true,
                    ..NONE
                }
            )
        )
    );
}

#[test]
fn words_that_ask_for_a_plan_over_files_or_a_key(rt: HostRuntime) {
    let alloc = rt.alloc();
    assert!(rt; asks(alloc, "watch p.toml k", Request::Watch("p.toml", "k", NONE)));
    assert!(rt;
        asks(
            alloc,
            "watch p abcdefghijklmnopqrstuvwx",
            Request::Watch("p", "abcdefghijklmnopqrstuvwx", NONE)
        )
    );
    assert!(rt;
        asks(
            alloc,
            "watch p k --workers 4 --bundle 3 --pending 2",
            Request::Watch(
                "p",
                "k",
                Options {
                    workers: 4,
                    bundle: 3,
                    pending: 2,
                    ..NONE
                }
            )
        )
    );
    assert!(rt;
        asks(
            alloc,
            "feeds p.toml a b",
            Request::Feeds("p.toml", "a", "b", NONE)
        )
    );
    assert!(rt; asks(alloc, "feeds p p p", Request::Feeds("p", "p", "p", NONE)));
    assert!(rt;
        asks(
            alloc,
            "feeds p a b --bundle 3 --taps --pending 2 --diary --workers 4",
            Request::Feeds(
                "p",
                "a",
                "b",
                Options {
                    workers: 4,
                    bundle: 3,
                    pending: 2,
                    diary: true,
                    taps: true
                }
            )
        )
    );
}

#[test]
fn words_that_ask_for_parts_of_a_run(rt: HostRuntime) {
    let alloc = rt.alloc();
    assert!(rt; asks(alloc, "part p.toml", Request::Part("p.toml", NONE)));
    assert!(rt;
        asks(
            alloc,
            "part p --pending 2 --workers 4 --bundle 3",
            Request::Part(
                "p",
                Options {
                    workers: 4,
                    bundle: 3,
                    pending: 2,
                    ..NONE
                }
            )
        )
    );
    assert!(rt; asks(alloc, "save p.toml", Request::Save("p.toml")));
    assert!(rt;
        asks(
            alloc,
            "resume p.toml c",
            Request::Resume("p.toml", "c", NONE)
        )
    );
    assert!(rt;
        asks(
            alloc,
            "resume p c --bundle 3 --pending 2 --workers 4",
            Request::Resume(
                "p",
                "c",
                Options {
                    workers: 4,
                    bundle: 3,
                    pending: 2,
                    ..NONE
                }
            )
        )
    );
}

/// Texts whose words ask for nothing.
const NOT_ASKED: [&str; 94] = [
    "",
    "sum",
    "sum 0",
    "sum 01",
    "sum +1",
    "sum 1000000000001",
    "sum 10 x",
    "Sum 10",
    "su 10",
    "run",
    "run -x",
    "slow",
    "slow -",
    "slow p --diary",
    "slow p x",
    "work",
    "work 0",
    "work 08",
    "work 10000001",
    "work -1",
    "work x",
    "work 8 9",
    "work 8 --diary",
    "work 8 --bundle 3 --taps",
    "work 8 --workers 65",
    "work 8 --workers 4 --workers 4",
    "work --workers 4",
    "work --workers 4 8",
    "audit x",
    "audit --diary",
    "--help",
    "help",
    "sum --help",
    "sum 10 --help",
    "sum 10 --",
    "sum -- 10",
    "sum 10 --workers",
    "sum 10 --workers=1",
    "sum 10 --workers 0",
    "sum 10 --workers 65",
    "sum 10 --workers 01",
    "sum 10 --bundle 0",
    "sum 10 --bundle 65537",
    "sum 10 --bundle --diary",
    "sum 10 --pending 0",
    "sum 10 --pending 1025",
    "sum 10 --pending -1",
    "sum 10 --diary --diary",
    "sum 10 --bundle 8 --bundle 8",
    "sum 10 --bundle 8 --taps --bundle 9",
    "sum 10 --diary 1",
    "sum 10 --bund 8",
    "sum 10 -d",
    "sum 10 --unknown",
    "sum --diary 10",
    "--diary sum 10",
    "watch",
    "watch p",
    "watch -p k",
    "watch p -x",
    "watch p k,",
    "watch p abcdefghijklmnopqrstuvwxy",
    "watch p k x",
    "watch p k --diary",
    "watch p k --taps",
    "watch p --workers 2 k",
    "feeds",
    "feeds p",
    "feeds p a",
    "feeds -p a b",
    "feeds p -a b",
    "feeds p a -b",
    "feeds p a b c",
    "feeds p a b --diary --diary",
    "feeds p a b --workers 65",
    "feeds p a --workers 2",
    "feeds p a --workers 2 b",
    "feeds p --taps a b",
    "part",
    "part -p",
    "part p x",
    "part p --taps",
    "part p --diary",
    "save",
    "save -p",
    "save p c",
    "save p --workers 2",
    "resume",
    "resume p",
    "resume p -c",
    "resume p c --diary",
    "resume p c --taps",
    "resume p --workers 2 c",
    "resume p --workers 2",
];

#[test]
fn other_words_ask_for_nothing(rt: HostRuntime) {
    for text in &NOT_ASKED {
        assert!(rt; asks_for_nothing(rt.alloc(), text), "{text}");
    }
}

/// Whether the words of a text, and then an empty one, ask for nothing.
fn is_refused_with_an_empty_word(alloc: Global, text: &str) -> Result<bool, AllocError> {
    let mut words = words_of(alloc, text)?;
    words.push(String::new(alloc))?;
    Ok(read_words(alloc, words.as_slice()) == Ok(None))
}

#[test]
fn empty_words_ask_for_nothing(rt: HostRuntime) {
    for text in ["run", "watch p", "feeds p a", "resume p"] {
        assert!(rt;
            is_refused_with_an_empty_word(rt.alloc(), text) == Ok(true),
            "{text}"
        );
    }
}
