//! The words `NETLIST PERIOD LOW HIGH`, read by hand.
//!
//! A number has one spelling, the one that it is printed in. So a word is read as a number, and taken where the number
//! prints as that word: no sign and no leading zero can get by.
ghost use Rattle.std.specs.Prelude.{◌≡◌, ◌≢◌, ◌≤◌, ℕ, MatchOption, decimal};
ghost use Rattle.signoff.specs.declared.words.Times.{Times};
ghost use Rattle.signoff.specs.Words.{AreTimes, Asks, AsksNothing, texts};

use itoa::Buffer;

/// The largest number that a word may give, in femtoseconds.
pub const LARGEST: u32 = 1_000_000_000;

/// The times that the words give, in femtoseconds.
#[derive(Clone, Copy, Debug, PartialEq, Eq)]
pub struct Times {
    /// From one clock pulse to the next.
    pub period: u32,
    /// The earliest arrival of a data pulse behind its tick.
    pub low: u32,
    /// The latest arrival of a data pulse behind its tick.
    pub high: u32,
}

/// The number that a word is the print of.
fn read_number(word: &str) -> Option<u32>
    ensures { MatchOption result ((n : ℕ) → n ≤ 1000000000 → word.now ≢ decimal n) (λ n. (n ≤ 1000000000) × (word.now ≡ decimal n)) }
{
    let Ok(number) = word.parse::<u32>() else {
        return None;
    };
    let mut buffer = Buffer::new();
    if number <= LARGEST && buffer.format(number) == word {
        Some(number)
    } else {
        None
    }
}

/// The three numbers, where they are spelled as numbers and are a period and an arrival.
fn read_times(period: &str, low: &str, high: &str) -> Option<Times>
    ensures { MatchOption result
        ((t : Times) → AreTimes t → period.now ≡ decimal t.period → low.now ≡ decimal t.low → high.now ≡ decimal t.high → ⊥)
        (λ t. AreTimes t × (period.now ≡ decimal t.period) × (low.now ≡ decimal t.low) × (high.now ≡ decimal t.high)) }
{
    let times = Times {
        period: read_number(period)?,
        low: read_number(low)?,
        high: read_number(high)?,
    };
    if times.period >= 1 && times.low <= times.high {
        Some(times)
    } else {
        None
    }
}

/// What the words ask for: the name of the netlist, and the times. `None` exactly where they ask for nothing: there are
/// not four of them, a number is not digits without sign and leading zero of a value up to `LARGEST`, the period is 0, or
/// the earliest arrival is after the latest.
pub fn read_words(words: &[String]) -> Option<(&str, Times)>
    ensures { MatchOption result (AsksNothing (texts words.now)) (λ r. Asks (texts words.now) r.0.now r.1) }
{
    match words {
        [netlist, period, low, high] => {
            match read_times(period.as_str(), low.as_str(), high.as_str()) {
                Some(times) => Some((netlist.as_str(), times)),
                None => None,
            }
        }
        _ => None,
    }
}
