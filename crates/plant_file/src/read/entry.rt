//! An entry of a section, and the reading of its keys.

ghost use Rattle.std.specs.Prelude.{◌≡◌, ◌<◌, ◌≤◌, ◌^◌, length, IfOk, option_map};
ghost use Rattle.toml.specs.Data.{boolean};
ghost use Rattle.toml.specs.View.{view, table_view};
ghost use Rattle.plant_file.specs.Rows.{key, Number, UpTo, Words, Flag, Required, Given, a_name};
ghost use Rattle.plant_file.specs.Rows.{number as given_number, words as given_words};
ghost use Rattle.plant_file.specs.Document.{found_at, as_number, as_text, as_flag};
ghost use Rattle.plant_file.specs.KeyFaults.{place};
ghost use Rattle.plant_file.specs.ReadingInside.{read_as, key_answer};

use crate::fault::{Field, Place, PlantFault, Section};
use crate::name::{MAX_NAME, Name};
use crate::read::form::found;
use crate::read::values;
use toml::{Table, Value};

// An entry of a section: its number in the section, and its keys.
#[derive(Clone, Copy)]
pub(crate) struct Entry<'a> {
    pub(crate) section: Section,
    pub(crate) number: u32,
    pub(crate) table: &'a Table,
}

#[tactic(auto, unfolding(crate::specs::ReadingInside::key_answer))]
impl<'a> Entry<'a> {
    // A key of the entry.
    pub(crate) fn place(&self, field: Field) -> Place
        ensures { result ≡ place self.now.section self.now.number field }
    {
        Place {
            section: self.section,
            entry: self.number,
            field,
        }
    }

    // What the entry has at a key.
    pub(crate) fn found(&self, field: Field) -> Option<&'a Value>
        ensures { option_map (λ value. view value.now) result
            ≡ found_at field (table_view self.now.table.now) }
    {
        found(self.table, field.key())
    }

    // A number.
    pub(crate) fn number(&self, field: Field, low: u64, high: u64) -> Result<u64, PlantFault>
        requires low { low < 2 ^ 63 }
        requires high { high < 2 ^ 63 }
        ensures answer { result ≡ key_answer as_number self.now.section self.now.number
            (table_view self.now.table.now) (key field (Number low high) Required) }
        ensures within { IfOk result (λ number. number ≤ high) }
    {
        let at = self.place(field);
        match self.found(field) {
            None => Err(PlantFault::Missing { at }),
            Some(value) => values::number(at, value, low, high),
        }
    }

    // A number, or the given one where it is absent.
    pub(crate) fn number_or(
        &self,
        field: Field,
        low: u64,
        high: u64,
        given: u64,
    ) -> Result<u64, PlantFault>
        requires low { low < 2 ^ 63 }
        requires high { high < 2 ^ 63 }
        requires given { given ≤ high }
        ensures answer { result ≡ key_answer as_number self.now.section self.now.number
            (table_view self.now.table.now) (key field (Number low high) (given_number given)) }
        ensures within { IfOk result (λ number. number ≤ high) }
    {
        match self.found(field) {
            None => Ok(given),
            Some(value) => values::number(self.place(field), value, low, high),
        }
    }

    // A number that the one at the key `limit` of the entry bounds too, or the given one where it is absent.
    pub(crate) fn number_up_to_or(
        &self,
        field: Field,
        high: u64,
        limit: Field,
        bound: u64,
        given: u64,
    ) -> Result<u64, PlantFault>
        requires high { high < 2 ^ 63 }
        requires bound { bound < 2 ^ 63 }
        requires limit { as_number (found_at limit (table_view self.now.table.now)) ≡ bound }
        requires given { given ≤ high }
        ensures answer { result ≡ key_answer as_number self.now.section self.now.number
            (table_view self.now.table.now) (key field (UpTo high limit) (given_number given)) }
        ensures within { IfOk result (λ number. number ≤ high) }
    {
        match self.found(field) {
            None => Ok(given),
            Some(value) => values::number_up_to(self.place(field), value, high, bound),
        }
    }

    // A text.
    pub(crate) fn words(&self, field: Field, low: u64, high: u64) -> Result<&'a str, PlantFault>
        requires low { low < 2 ^ 63 }
        requires high { high < 2 ^ 63 }
        ensures answer { read_as (λ text. text.now) result ≡ key_answer as_text self.now.section
            self.now.number (table_view self.now.table.now) (key field (Words low high) Required) }
        ensures within { IfOk result (λ text. length text.now ≤ high) }
    {
        let at = self.place(field);
        match self.found(field) {
            None => Err(PlantFault::Missing { at }),
            Some(value) => values::words(at, value, low, high),
        }
    }

    // A text, or the given one where it is absent.
    pub(crate) fn words_or(
        &self,
        field: Field,
        low: u64,
        high: u64,
        given: &'a str,
    ) -> Result<&'a str, PlantFault>
        requires low { low < 2 ^ 63 }
        requires high { high < 2 ^ 63 }
        ensures { read_as (λ text. text.now) result ≡ key_answer as_text self.now.section
            self.now.number (table_view self.now.table.now)
            (key field (Words low high) (given_words given.now)) }
    {
        match self.found(field) {
            None => Ok(given),
            Some(value) => values::words(self.place(field), value, low, high),
        }
    }

    // A name.
    pub(crate) fn name(&self, field: Field) -> Result<Name, PlantFault>
        ensures { result ≡ key_answer as_text self.now.section self.now.number
            (table_view self.now.table.now) (key field a_name Required) }
    {
        match self.words(field, 1, MAX_NAME as u64) {
            Ok(text) => Ok(Name::of(text.as_bytes())),
            Err(fault) => Err(fault),
        }
    }

    // True or false, or what is given where it is absent.
    pub(crate) fn flag_or(&self, field: Field, given: bool) -> Result<bool, PlantFault>
        ensures { result ≡ key_answer as_flag self.now.section self.now.number
            (table_view self.now.table.now) (key field Flag (Given (boolean given))) }
    {
        match self.found(field) {
            None => Ok(given),
            Some(value) => values::flag(self.place(field), value),
        }
    }
}
