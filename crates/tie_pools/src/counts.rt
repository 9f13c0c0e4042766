//! Counts in a table by number.

ghost use Rattle.std.specs.Prelude.{◌≡◌, ◌<◌, ◌≤◌};
ghost use Rattle.tie_pools.specs.Counts.{count_at};
ghost use Rattle.tie_pools.specs.CountsInside.{more_at, fewer_at};
ghost use Rattle.tie_pools.specs.RebuiltInside.{AreCleared};

use number_tables::NumberMap;
use plant_config::MAX_DESTINATIONS;

/// A count, 0 where none is kept.
pub(crate) fn count_of(counts: &NumberMap<u32>, number: u32) -> u32
    ensures { result ≡ count_at counts.now.entries number }
{
    counts.get(number).unwrap_or(0)
}

/// Counts one more at a number.
pub(crate) fn count_more(counts: &mut NumberMap<u32>, number: u32)
    requires room { number < counts.old.room }
    requires count { count_at counts.old.entries number ≤ MAX_DESTINATIONS }
    ensures entries { counts.new.entries ≡ more_at counts.old.entries number }
    ensures room { counts.new.room ≡ counts.old.room }
{
    let count = count_of(counts, number);
    counts.set(number, Some(count + 1));
}

/// Counts one fewer at a number.
pub(crate) fn count_fewer(counts: &mut NumberMap<u32>, number: u32)
    requires room { number < counts.old.room }
    ensures entries { counts.new.entries ≡ fewer_at counts.old.entries number }
    ensures room { counts.new.room ≡ counts.old.room }
{
    let count = count_of(counts, number);
    counts.set(number, Some(count.saturating_sub(1)));
}

/// Takes the values of the numbers below a count away.
pub(crate) fn clear<V: Copy>(table: &mut NumberMap<V>, count: u32)
    requires { count ≤ table.old.room }
    ensures entries { AreCleared table.old.entries table.new.entries count }
    ensures room { table.new.room ≡ table.old.room }
{
    for number in 0..count {
        table.set(number, None);
    }
}
