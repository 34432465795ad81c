// The counters that limit retries: src/counters.rs of usbpd 3.0.0, PD 3.2 Tab. 6.70.
#![tactic(auto)]

ghost use Rattle.std.specs.Prelude.{◌≡◌};
ghost use Rattle.counters.specs.Counting as counting;

// Any values may be handed in; R1 refuses a count above its limit, and a limit of 0.
#[derive(Clone, Copy, PartialEq, Eq)]
pub struct Counter {
    pub value: u8,
    pub max_value: u8,
}

// What an increment reports: the count after it, and the attempts that remain.
#[derive(Clone, Copy, PartialEq, Eq)]
pub struct Increment {
    pub count: Counter,
    pub remaining: u8,
}

// An increment that failed: the count is at its limit and as it was, and no attempt remains.
#[derive(Clone, Copy, PartialEq, Eq)]
pub struct Exceeded(pub Increment);

impl Counter {
    // The Rust wraps to 0 when it fails. Document 01, port order 1: "the next fails and leaves N (ours)".
    #[tactic(auto, unfolding(crate::specs::Counting::increment))]
    pub fn increment(self) -> Result<Increment, Exceeded>
        ensures { result ≡ counting.increment self }
    {
        if self.value < self.max_value {
            let value = self.value + 1;
            Ok(Increment {
                count: Counter { value, ..self },
                remaining: self.max_value - value,
            })
        } else {
            Err(Exceeded(Increment {
                count: self,
                remaining: 0,
            }))
        }
    }

    pub fn reset(self) -> Counter
        ensures { result ≡ counting.reset self }
    {
        Counter { value: 0, ..self }
    }
}

// The attempts that an increment reports as remaining, succeeded or failed.
pub fn reported(tried: Result<Increment, Exceeded>) -> u8
    ensures { result ≡ counting.reported tried }
{
    match tried {
        Ok(increment) => increment.remaining,
        Err(Exceeded(increment)) => increment.remaining,
    }
}

// The attempts that remain at a count, whoever keeps it: "limit minus count after the increment, and 0 on failure".
pub fn remaining(tried: Result<Counter, Exceeded>) -> u8
    ensures { result ≡ counting.remaining tried }
{
    match tried {
        Ok(count) => count.max_value.saturating_sub(count.value),
        Err(Exceeded(_)) => 0,
    }
}

#[cfg(test)]
mod tests {
    use super::*;

    fn at(value: u8) -> Counter {
        Counter {
            value,
            max_value: 3,
        }
    }

    #[test]
    fn remains_at_a_count(rt: HostRuntime) {
        for (value, want) in [(0, 3), (1, 2), (3, 0), (4, 0)] {
            assert_eq!(rt; remaining(Ok(at(value))), want, "at {value}");
        }
        for (value, want) in [(0, 2), (2, 0), (3, 0)] {
            assert_eq!(rt;
                remaining(at(value).increment().map(|i| i.count)),
                want,
                "after {value}"
            );
        }
    }
}
