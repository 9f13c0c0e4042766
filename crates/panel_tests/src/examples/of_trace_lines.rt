//! A use of `trace_lines`: a line of a trace, written and read.

ghost use Rattle.std.specs.Prelude.{◌≡◌};
ghost use Rattle.plant_core.specs.declared.request.Request.TheVariants.{Leave};

use plant_config::{PanelNo, Plant};
use plant_core::Request;
use std::test::Fail;
use trace_lines::{LineRoom, trace_request};

// The leave of the second panel.
fn left() -> Request
    ensures { result ≡ Leave 1 }
{
    Request::Leave {
        panel: PanelNo::of(1),
    }
}

#[test]
fn a_line_tells_a_request(rt: HostRuntime) -> Result<(), Fail> {
    let mut room = LineRoom::new(rt.alloc())?;
    let plant = Plant::bench(rt.alloc())?;
    assert!(rt; room.write(12, left(), b"") == b"12 leave 1 = -\n".as_slice());
    assert!(rt; trace_request(&plant, b"12 leave 1 = -") == Some((12, left())));

    // The bench plant has two panels, and a position is without zeros in front.
    assert!(rt; trace_request(&plant, b"12 leave 2 = -") == None);
    assert!(rt; trace_request(&plant, b"012 leave 1 = -") == None);
    Ok(())
}
