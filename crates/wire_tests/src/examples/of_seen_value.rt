//! `seen_value` in use.

ghost use Rattle.std.specs.Prelude.{◌≡◌, ◌+◌, ◌<◌, ◌≤◌, ◌^◌, All};

use seen_value::Seen;
use std::test::Fail;
use std::thread::{Threads, for_each_mut};

/// A count, and what clauses are told of where it began.
#[derive(Drop)]
struct Count {
    now: u32,
    began: Seen<u32>,
    ghost risen: { began.value ≤ now },
}

impl Count {
    fn from(number: u32) -> Count
        ensures { (result.now ≡ number) × (result.began.value ≡ number) }
    {
        Count {
            now: number,
            began: Seen::of(&number),
        }
    }

    fn rise(&mut self)
        requires { self.old.now < 2 ^ 31 }
        ensures { (self.new.now ≡ self.old.now + 1) × (self.new.began ≡ self.old.began) }
    {
        self.now += 1;
    }
}

/// Each rises, by two threads.
fn all_rise<R: Threads + Sync>(rt: &R, counts: &mut [Count])
    requires { All (λ count. count.now < 2 ^ 31) counts.old }
{
    for_each_mut(rt, counts, 2, &|_, count| count.rise());
}

#[test]
fn counts_rise(rt: HostRuntime) -> Result<(), Fail> {
    let mut counts = [Count::from(3), Count::from(8)];
    all_rise(&rt, &mut counts);
    assert!(rt; (counts[0].now, counts[1].now) == (4, 9));
    Ok(())
}
