//! The table.

ghost use Rattle.std.specs.Prelude.{◌≡◌, ◌<◌, IfOk, slice_get};
ghost use Rattle.std.specs.Option.{option_flatten};
ghost use Rattle.std.specs.FinMap.{empty, get};
ghost use Rattle.number_tables.specs.Table.{put};

use std::alloc::{AllocError, Global};
use std::marker::Model;

/// Values by number, with room for all numbers below a count. A contract sees the finite map and the room.
#[derive(Debug, Drop)]
pub struct NumberMap<V> {
    /// The value of each number, where it has one.
    values: Vec<Option<V>>,
}

impl<V> Model for NumberMap<V> {
    ghost use Rattle.number_tables.specs.Table.{Table, code};
    ghost use Rattle.number_tables.specs.TableInside.{table_of};

    ghost Value = { Table V };

    ghost coded = { code V.code };

    ghost view = { λ map. table_of map.values.items };
}

impl<V: Copy> NumberMap<V> {
    /// No values, and room for the numbers below this count.
    pub fn new(alloc: Global, room: usize) -> Result<NumberMap<V>, AllocError>
        ensures empty { IfOk result (λ map. map.entries ≡ empty) }
        ensures room { IfOk result (λ map. map.room ≡ room) }
    {
        let values = vec![in alloc; None; room]?;
        Ok(NumberMap { values })
    }

    /// The value of a number, `None` where it has none, as each number past the room.
    pub fn get(&self, number: u32) -> Option<V>
        ensures { result ≡ get self.now.entries number }
    {
        value_at(&self.values, number as usize)
    }

    /// Sets the value of a number, or removes it. No other number's value changes.
    pub fn set(&mut self, number: u32, value: Option<V>)
        requires { number < self.old.room }
        ensures entries { self.new.entries ≡ put self.old.entries number value }
        ensures room { self.new.room ≡ self.old.room }
    {
        self.values[number as usize] = value;
    }
}

// The value at an index, `None` also past the end.
fn value_at<V: Copy>(values: &[Option<V>], index: usize) -> Option<V>
    ensures { result ≡ option_flatten (slice_get values.now index) }
{
    values.get(index).copied().flatten()
}
