//! The parts of a plant that are in the order of its file.

ghost use Rattle.std.specs.Prelude.{◌≡◌, map, IfOk};
ghost use Rattle.plant_config.specs.PlantOfFile.{pool_in, panel_in, root_in, display_in};
ghost use Rattle.plant_config.specs.OfFileInside.{AreLow};

use super::lookups::dest_number;
use crate::numbers::DestId;
use crate::records::{Display, Level, Panel, Pool};
use plant_file::{DisplayEntry, PanelEntry, PoolEntry, RootEntry};
use std::alloc::{AllocError, Global};

/// The pools of tie-lines.
pub fn pools(alloc: Global, pools: &[PoolEntry]) -> Result<Vec<Pool>, AllocError>
    ensures { IfOk result (λ made. made.items ≡ map pool_in pools.now) }
{
    pools
        .iter()
        .map(|pool| Pool {
            from: pool.from,
            to: pool.to,
            level: pool.level,
            ties: pool.ties,
            reserve: pool.reserve,
        })
        .collect(alloc)
}

/// The destinations that are on air, or on preview.
pub fn roots(
    alloc: Global,
    levels: &[Level],
    roots: &[RootEntry],
) -> Result<Vec<DestId>, AllocError>
    requires { AreLow levels.now }
    ensures { IfOk result (λ made. made.items ≡ map (root_in levels.now) roots.now) }
{
    let mut made = Vec::new(alloc);
    for root in roots {
        made.push(dest_number(levels, root.matrix, 0, root.destination))?;
    }
    Ok(made)
}

/// The displays.
pub fn displays(
    alloc: Global,
    levels: &[Level],
    displays: &[DisplayEntry],
) -> Result<Vec<Display>, AllocError>
    requires { AreLow levels.now }
    ensures { IfOk result (λ made. made.items ≡ map (display_in levels.now) displays.now) }
{
    let mut made = Vec::new(alloc);
    for display in displays {
        made.push(Display {
            screen: display.screen,
            index: display.index,
            watch: dest_number(levels, display.matrix, 0, display.destination),
        })?;
    }
    Ok(made)
}

/// The panels.
pub fn panels(alloc: Global, panels: &[PanelEntry]) -> Result<Vec<Panel>, AllocError>
    ensures { IfOk result (λ made. made.items ≡ map panel_in panels.now) }
{
    panels
        .iter()
        .map(|panel| Panel {
            device: panel.device,
            port: panel.port,
            master: panel.master,
        })
        .collect(alloc)
}
