//! Lines that are made from a number, for runs that nobody has written down.

ghost use Rattle.std.specs.Prelude.{◌≤◌, ◌<◌};

use std::alloc::{AllocError, Global};

/// How many times a bundle of records or a watermark comes.
const ITEMS: u32 = 24;

/// Numbers that look random.
#[derive(Drop)]
struct Numbers {
    state: u64,
}

impl Numbers {
    /// The next number, below a bound.
    fn below(&mut self, bound: u64) -> u64
        requires { 1 ≤ bound }
        ensures { result < bound }
    {
        let next = self
            .state
            .wrapping_mul(6_364_136_223_846_793_005)
            .wrapping_add(1_442_695_040_888_963_407);
        self.state = next;
        (next >> 33) % bound
    }
}

/// Appends what comes next of a stream whose last watermark this is: a watermark, or up to four records behind it.
fn append_item(
    alloc: Global,
    numbers: &mut Numbers,
    stream: &str,
    mark: &mut u64,
    text: &mut Vec<u8>,
) -> Result<(), AllocError> {
    if numbers.below(3) == 0 {
        *mark = mark.saturating_add(numbers.below(16));
        let line = format!(in alloc; "w,{stream},{}\n", *mark)?;
        return text.extend_from_slice(line.as_bytes());
    }
    for _ in 0..1 + numbers.below(4) {
        let time = mark.saturating_add(numbers.below(30));
        let key = numbers.below(3);
        let value = numbers.below(20);
        let line = format!(in alloc; "r,{stream},{time},{key},{value}\n")?;
        text.extend_from_slice(line.as_bytes())?;
    }
    Ok(())
}

/// Lines of both streams, none of which is late.
pub fn lines_from(alloc: Global, seed: u64) -> Result<Vec<u8>, AllocError> {
    let mut numbers = Numbers { state: seed };
    let mut text = Vec::new(alloc);
    let (mut a, mut b) = (0, 0);
    for _ in 0..ITEMS {
        if numbers.below(2) == 0 {
            append_item(alloc, &mut numbers, "a", &mut a, &mut text)?;
        } else {
            append_item(alloc, &mut numbers, "b", &mut b, &mut text)?;
        }
    }
    Ok(text)
}
