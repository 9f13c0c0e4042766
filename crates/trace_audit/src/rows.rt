//! Rows by position.

ghost use Rattle.std.specs.Prelude.{◌≡◌, ℕ, ◌<◌, length, vec_capacity, IfOk, OnOk, None};
ghost use Rattle.std.specs.Ordering.{nat_cmp};
ghost use Rattle.std.specs.BTreeMap.{get};
ghost use Rattle.std.specs.Option.{option_copied};
ghost use Rattle.trace_audit.specs.RowsInside.{row_at, row_of_table, IsPut};

use std::alloc::{AllocError, Global};
use std::collections::BTreeMap;

// A row or none at each position.
#[derive(Drop)]
pub(crate) struct Rows<V> {
    // Those of the positions for which it has room. Behind its end are none.
    table: Vec<Option<V>>,
    // Those of the others.
    others: BTreeMap<u64, V>,
}

impl<V: Drop> Rows<V> {
    // No row at any position. Those at so many positions are found at once.
    pub(crate) fn new(alloc: Global, count: usize) -> Result<Rows<V>, AllocError>
        ensures { IfOk result (λ rows. (position : ℕ) → row_at rows position ≡ None) }
    {
        let table = Vec::with_capacity(alloc, count)?;
        Ok(Rows {
            table,
            others: BTreeMap::new(alloc),
        })
    }

    // The row of a position, if it has one.
    pub(crate) fn get(&self, position: u64) -> Option<&V>
        ensures { option_copied result ≡ row_at self.now position }
    {
        if position < self.table.capacity() as u64 {
            return value_at(&self.table, position as usize);
        }
        self.others.get(&position)
    }

    // Puts a row at a position: the first one where none was there, else the other one.
    pub(crate) fn put(&mut self, position: u64, first: V, other: V) -> Result<(), AllocError>
        ensures { OnOk result (IsPut (row_at self.old) (row_at self.new) position first other) }
    {
        if position < self.table.capacity() as u64 {
            put_within(&mut self.table, position as usize, first, other);
            return Ok(());
        }
        put_at(&mut self.others, position, first, other)
    }
}

// The value at a place of a table, if it has one.
fn value_at<V>(table: &[Option<V>], place: usize) -> Option<&V>
    ensures { option_copied result ≡ row_of_table table.now place }
{
    match table.get(place) {
        Some(value) => value.as_ref(),
        None => None,
    }
}

// Puts a value at a place for which a table has room: the first one where none was there, else the other one.
fn put_within<V: Drop>(table: &mut Vec<Option<V>>, place: usize, first: V, other: V)
    requires { place < vec_capacity table.old }
    ensures put { IsPut (row_of_table table.old.items) (row_of_table table.new.items)
        place first other }
    ensures room { vec_capacity table.new ≡ vec_capacity table.old }
{
    // Most positions come in order, each at the table's end.
    if place == table.len() {
        table.push_reserved(Some(first));
        return;
    }
    lengthen(table, place);
    put_in(table, place, first, other);
}

// Makes a table longer, if it must be, so that it has this place, for which there is room. No value changes.
fn lengthen<V: Drop>(table: &mut Vec<Option<V>>, place: usize)
    requires { place < vec_capacity table.old }
    ensures values { (other : ℕ)
        → row_of_table table.new.items other ≡ row_of_table table.old.items other }
    ensures length { place < length table.new.items }
    ensures room { vec_capacity table.new ≡ vec_capacity table.old }
{
    for count in table.len()..place + 1 {
        let _ = count;
        table.push_reserved(None);
    }
}

// Puts a value in a table: the first one where none was at the place, else the other one.
fn put_in<V: Drop>(table: &mut [Option<V>], place: usize, first: V, other: V)
    requires { place < length table.old }
    ensures put { IsPut (row_of_table table.old) (row_of_table table.new) place first other }
    ensures length { length table.new ≡ length table.old }
{
    if table[place].replace(first).is_some() {
        table[place] = Some(other);
    }
}

// The same in a map, at any position.
fn put_at<V: Drop>(
    values: &mut BTreeMap<u64, V>,
    position: u64,
    first: V,
    other: V,
) -> Result<(), AllocError>
    ensures { OnOk result (IsPut (λ place. get nat_cmp values.old place)
        (λ place. get nat_cmp values.new place) position first other) }
{
    if values.insert(position, first)?.is_some() {
        values.insert(position, other)?;
    }
    Ok(())
}
