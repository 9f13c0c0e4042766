//! The entries of a trace, by position.

ghost use Rattle.std.specs.Prelude.{◌≡◌, ◌+◌, ◌≤◌, ◌<◌, ◌^◌, ◌∷◌, ◌++◌, [], List};
ghost use Rattle.std.specs.Prelude.{IfOk, OnOk};
ghost use Rattle.std.specs.Option.{option_copied};
ghost use Rattle.plant_config.specs.Plant.{PlantData};
ghost use Rattle.plant_core.specs.State.{FitsPlant};
ghost use Rattle.trace_lines.specs.TraceLine.{trace_limit};
ghost use Rattle.trace_lines.specs.Trace.{TracedEntry};
ghost use Rattle.trace_lines.specs.Trace.{entry_of};
ghost use Rattle.trace_audit.specs.KeptInside.{AreKept};
ghost use Rattle.trace_audit.specs.RowsInside.{row_at};

use crate::rows::Rows;
use plant_core::Request;
use std::alloc::{AllocError, Global};
use trace_lines::Traced;

// The last entry that a line told at a position, and whether there was one before.
#[derive(Clone, Copy, Debug)]
pub(crate) struct Row<'t> {
    pub(crate) request: Request,
    pub(crate) reply: &'t [u8],
    pub(crate) repeated: bool,
}

// The entries of the lines so far.
#[derive(Drop)]
pub(crate) struct Kept<'t> {
    rows: Rows<Row<'t>>,
    // How many there are.
    lines: u64,
    // How many positions there are from 0 to the greatest one.
    positions: u64,
}

impl<'t> Kept<'t> {
    // No entry. Those at so many positions are found at once.
    pub(crate) fn new(alloc: Global, count: usize) -> Result<Kept<'t>, AllocError>
        ensures { IfOk result (λ kept. (plant : PlantData) → AreKept plant kept []) }
    {
        let rows = Rows::new(alloc, count)?;
        Ok(Kept {
            rows,
            lines: 0,
            positions: 0,
        })
    }

    // How many lines told an entry.
    pub(crate) fn lines(&self) -> u64
        ensures { result ≡ self.now.lines }
    {
        self.lines
    }

    // How many positions there are from 0 to the greatest one.
    pub(crate) fn positions(&self) -> u64
        ensures { result ≡ self.now.positions }
    {
        self.positions
    }

    // The row of a position, if a line had it.
    pub(crate) fn row(&self, position: u64) -> Option<&Row<'t>>
        ensures { option_copied result ≡ row_at self.now.rows position }
    {
        self.rows.get(position)
    }

    // Keeps one entry more.
    pub(crate) fn put(&mut self, traced: &Traced<'t>) -> Result<(), AllocError>
        requires position { traced.now.position ≤ trace_limit }
        requires lines { self.old.lines + 1 < 2 ^ 64 }
        ensures { (plant : PlantData) (entries : List TracedEntry)
            → FitsPlant plant traced.now.request → AreKept plant self.old entries
            → OnOk result (AreKept plant self.new (entries ++ entry_of traced.now ∷ [])) }
    {
        let position = traced.position;
        let first = row_of(traced, false);
        let other = row_of(traced, true);
        self.rows.put(position, first, other)?;
        self.lines += 1;
        self.positions = self.positions.max(position + 1);
        Ok(())
    }
}

// The row of an entry.
fn row_of<'t>(traced: &Traced<'t>, repeated: bool) -> Row<'t>
    ensures { result ≡ record {
      request = traced.now.request;
      reply = traced.now.reply;
      repeated = repeated;
    } }
{
    Row {
        request: traced.request,
        reply: traced.reply,
        repeated,
    }
}
