//! The first fault of a plant file by what its entries name.

ghost use Rattle.std.specs.Prelude.{◌≡◌, IfOk};
ghost use Rattle.plant_file.specs.FirstFault.{first_fault, unless_fault};
ghost use Rattle.plant_rules.specs.Links.{unknown_faults, not_local_faults, no_pool_faults};
ghost use Rattle.plant_rules.specs.LinksInside.{link_faults, AreNumbered};

use crate::known::Known;
use crate::rule::{Rule, RuleOf, check_section};
use crate::unknown::{MAIN_LEVEL, Unknown};
use plant_file::{DeviceEntry, Field, Place, PlantFault, PlantFile, RemoteEntry, Section};
use std::alloc::{AllocError, Global};

// A source that must be one of its own matrix isn't.
#[derive(Clone, Copy)]
struct Foreign<'k, 'f> {
    known: &'k Known<'f>,
}

impl Rule for Foreign<'_, '_> {
    ghost use Rattle.plant_file.specs.declared.fault.PlantFault.TheVariants.{NotLocal};

    ghost fault = { NotLocal };

    fn fault(at: Place) -> PlantFault {
        PlantFault::NotLocal { at }
    }
}

impl RuleOf<RemoteEntry> for Foreign<'_, '_> {
    ghost use Rattle.plant_rules.specs.LinksInside.{remote_not_local};

    ghost broken = { λ rule remote. remote_not_local rule.known.now remote };

    fn first_broken(&self, remote: &RemoteEntry) -> Option<Field> {
        if self
            .known
            .is_remote(remote.from, remote.level, remote.from_source)
        {
            Some(Field::FromSource)
        } else {
            None
        }
    }
}

impl RuleOf<DeviceEntry> for Foreign<'_, '_> {
    ghost use Rattle.plant_rules.specs.LinksInside.{device_not_local};

    ghost broken = { λ rule device. device_not_local rule.known.now device };

    fn first_broken(&self, device: &DeviceEntry) -> Option<Field> {
        if self
            .known
            .is_remote(device.matrix, MAIN_LEVEL, device.source)
        {
            Some(Field::Source)
        } else {
            None
        }
    }
}

// No pool leads to a remote.
#[derive(Clone, Copy)]
struct Unreached<'k, 'f> {
    known: &'k Known<'f>,
}

impl Rule for Unreached<'_, '_> {
    ghost use Rattle.plant_file.specs.declared.fault.PlantFault.TheVariants.{NoPool};

    ghost fault = { NoPool };

    fn fault(at: Place) -> PlantFault {
        PlantFault::NoPool { at }
    }
}

impl RuleOf<RemoteEntry> for Unreached<'_, '_> {
    ghost use Rattle.plant_rules.specs.LinksInside.{remote_unreached};

    ghost broken = { λ rule remote. remote_unreached rule.known.now remote };

    fn first_broken(&self, remote: &RemoteEntry) -> Option<Field> {
        if self
            .known
            .has_pool(remote.from, remote.matrix, remote.level)
        {
            None
        } else {
            Some(Field::From)
        }
    }
}

// An entry names what the plant doesn't have.
#[tactic(auto, unfolding(crate::specs::Links::unknown_faults))]
fn check_unknown(known: &Known<'_>) -> Result<(), PlantFault>
    requires { AreNumbered known.now }
    ensures { result ≡ unless_fault tt (first_fault (unknown_faults known.now)) }
{
    let rule = Unknown { known };
    let file = known.file();
    check_section(&rule, Section::Remote, file.remotes())?;
    check_section(&rule, Section::Pool, file.pools())?;
    check_section(&rule, Section::Device, file.devices())?;
    check_section(&rule, Section::Bus, file.buses())?;
    check_section(&rule, Section::Air, file.air())?;
    check_section(&rule, Section::Preview, file.preview())?;
    check_section(&rule, Section::Display, file.displays())
}

// A source that must be one of its own matrix isn't.
#[tactic(auto, unfolding(crate::specs::Links::not_local_faults))]
fn check_local(known: &Known<'_>) -> Result<(), PlantFault>
    requires { AreNumbered known.now }
    ensures { result ≡ unless_fault tt (first_fault (not_local_faults known.now)) }
{
    let rule = Foreign { known };
    let file = known.file();
    check_section(&rule, Section::Remote, file.remotes())?;
    check_section(&rule, Section::Device, file.devices())
}

// No pool leads to a remote.
#[tactic(auto, unfolding(crate::specs::Links::no_pool_faults))]
fn check_pools(known: &Known<'_>) -> Result<(), PlantFault>
    requires { AreNumbered known.now }
    ensures { result ≡ unless_fault tt (first_fault (no_pool_faults known.now)) }
{
    check_section(
        &Unreached { known },
        Section::Remote,
        known.file().remotes(),
    )
}

// The first of these faults.
fn check_links(known: &Known<'_>) -> Result<(), PlantFault>
    requires { AreNumbered known.now }
    ensures { result ≡ unless_fault tt (first_fault (link_faults known.now)) }
{
    check_unknown(known)?;
    check_local(known)?;
    check_pools(known)
}

// The first fault of a plant file by what its entries name.
pub(crate) fn link_fault(alloc: Global, file: &PlantFile) -> Result<Option<PlantFault>, AllocError>
    requires { AreNumbered file.now }
    ensures { IfOk result (λ found. found ≡ first_fault (link_faults file.now)) }
{
    let known = Known::of(alloc, file)?;
    Ok(check_links(&known).err())
}
