//! A use of `history_lock`: a machine that counts.

ghost use Rattle.std.specs.Prelude.{◌+◌, ◌%◌, ◌^◌, [], ◌∷◌};

use history_lock::{Machine, OutBox};
use std::test::Fail;

/// It counts up by what is asked, from 2^64 on from 0 again, and answers the count.
#[derive(Drop)]
struct Counter {
    count: u64,
}

impl Machine for Counter {
    type Request = u64;

    type Answer = u64;

    ghost step = { λ counter by.
        let count = (counter.count + by) % 2 ^ 64 in
        record { state = record { count = count }; answers = count ∷ [] } };

    ghost Fits = { λ counter by. Unit {0} };

    ghost room = { λ counter. 1 };

    fn room(&self) -> usize {
        1
    }

    fn fits(&self, _by: &u64) -> bool {
        true
    }

    fn step(&mut self, by: &u64, out: &mut OutBox<u64>) {
        self.count = self.count.wrapping_add(*by);
        out.put(self.count);
    }
}

#[test]
fn a_counter_counts(rt: HostRuntime) -> Result<(), Fail> {
    let mut counter = Counter { count: 3 };
    let mut out = OutBox::new(rt.alloc(), counter.room())?;
    assert!(rt; counter.fits(&4));
    counter.step(&4, &mut out);
    assert!(rt; out.items() == [7].as_slice());
    out.clear();
    counter.step(&1, &mut out);
    assert!(rt; out.items() == [8].as_slice());
    Ok(())
}
