//! The walk over the positions of a trace, on one plant.

ghost use Rattle.std.specs.Prelude.{◌≡◌, List, IfOk};
ghost use Rattle.plant_core.specs.State.{start, FitsPlant};
ghost use Rattle.plant_core.specs.Step.{step};
ghost use Rattle.trace_lines.specs.Trace.{TracedEntry};
ghost use Rattle.trace_audit.specs.Verdict.{wanted_reply};
ghost use Rattle.trace_audit.specs.KeptInside.{AreKept, IsFound, IsLooked, IsReady};

use crate::kept::{Kept, Row};
use crate::verdict::Verdict;
use ctl_io::Bytes;
use history_lock::OutBox;
use panel_session::TraceLines;
use plant_config::Plant;
use plant_core::{Answer, PlantState, Request};
use std::alloc::{AllocError, Global};

// The most bytes of the text of a reply, with the byte that ends a line.
const MAX_REPLY: usize = 65_537;

// The first finding of the entries, by positions from 0, if there is one. It takes memory for a plant before the first
// position, and for the texts of a reply that differs.
pub(crate) fn walk(
    alloc: Global,
    plant: &Plant,
    kept: &Kept<'_>,
) -> Result<Option<Verdict>, AllocError>
    requires { (entries : List TracedEntry) × AreKept plant.now kept.now entries }
    ensures { IfOk result (λ found. (entries : List TracedEntry)
        → AreKept plant.now kept.now entries → IsFound plant.now entries found) }
{
    let mut walker = Walker::start(alloc, plant)?;
    walker.walk(alloc, plant, kept)
}

// A plant, and the room for the answers of a step and for the text of the reply.
#[derive(Drop)]
pub(crate) struct Walker {
    pub(crate) state: PlantState,
    pub(crate) answers: OutBox<Answer>,
    pub(crate) lines: TraceLines,
    pub(crate) wanted: Vec<u8>,
}

impl Walker {
    // The plant at its start.
    fn start(alloc: Global, plant: &Plant) -> Result<Walker, AllocError>
        ensures ready { IfOk result (λ walker. IsReady plant.now walker) }
        ensures state { IfOk result (λ walker. walker.state ≡ start plant.now) }
    {
        let answers = OutBox::new(alloc, PlantState::room_of(plant))?;
        let lines = TraceLines::new(alloc)?;
        let wanted = Vec::with_capacity(alloc, MAX_REPLY)?;
        Ok(Walker {
            state: PlantState::start(alloc, plant)?,
            answers,
            lines,
            wanted,
        })
    }

    // The first finding from the plant's start on.
    fn walk(
        &mut self,
        alloc: Global,
        plant: &Plant,
        kept: &Kept<'_>,
    ) -> Result<Option<Verdict>, AllocError>
        requires ready { IsReady plant.now self.old }
        requires start { self.old.state ≡ start plant.now }
        requires kept { (entries : List TracedEntry) × AreKept plant.now kept.now entries }
        ensures { IfOk result (λ found. (entries : List TracedEntry)
            → AreKept plant.now kept.now entries → IsFound plant.now entries found) }
    {
        for position in 0..kept.positions() {
            let Some(row) = kept.row(position) else {
                return Ok(Some(Verdict::Gap(position)));
            };
            if let Some(found) = self.look(alloc, plant, position, row)? {
                return Ok(Some(found));
            }
        }
        Ok(None)
    }

    // What is found at a position that has this row. Where nothing is, the plant has gone on by the row's request.
    fn look(
        &mut self,
        alloc: Global,
        plant: &Plant,
        position: u64,
        row: &Row<'_>,
    ) -> Result<Option<Verdict>, AllocError>
        requires ready { IsReady plant.now self.old }
        requires fits { FitsPlant plant.now row.now.request }
        ensures ready { IsReady plant.now self.new }
        ensures looked { IfOk result
            (λ found. IsLooked plant.now position row.now self.old.state self.new.state found) }
    {
        if row.repeated {
            return Ok(Some(Verdict::Repeat(position)));
        }
        self.reply(plant, &row.request);
        if self.wanted.as_slice() == row.reply {
            return Ok(None);
        }
        Ok(Some(Verdict::Differs {
            position,
            kept: Bytes::of(row.reply.to_vec(alloc)?),
            wanted: Bytes::of(self.wanted.as_slice().to_vec(alloc)?),
        }))
    }

    // Makes a request, and writes the text of what the plant replies.
    fn reply(&mut self, plant: &Plant, request: &Request)
        requires ready { IsReady plant.now self.old }
        requires fits { FitsPlant plant.now request.now }
        ensures ready { IsReady plant.now self.new }
        ensures state { self.new.state ≡ (step self.old.state request.now).state }
        ensures wanted { self.new.wanted.items
            ≡ wanted_reply plant.now self.old.state request.now }
    {
        self.answers.clear();
        self.state.step(request, &mut self.answers);
        self.wanted.clear();
        self.lines
            .append_reply(plant, request, self.answers.items(), &mut self.wanted);
    }
}
