//! What a plant says beside its levels and panels: names, where a source's picture comes from, and how it is served.

ghost use Rattle.std.specs.Prelude.{◌≡◌, ◌<◌, true, length, slice_get, Some, IfSome};
ghost use Rattle.plant_file.specs.Ranges.{IsName};
ghost use Rattle.plant_config.specs.Plant.{sources_of};
ghost use Rattle.plant_config.specs.IsPlant.{IsPlant, is_local};
ghost use Rattle.plant_config.specs.Reserves.{has_reserve};
ghost use Rattle.plant_config.specs.Screens.{screens_of, has_screen, screen_of};
ghost use Rattle.plant_config.specs.Sources.{origin_of, pool_of, source_name_of};

use crate::numbers::{DestId, PoolId, SourceId};
use crate::plant::Plant;
use crate::records::{Bus, Device, Display, Pool, Source};
use plant_file::{Name, Server, Text};

impl Plant {
    /// The plant's title, 1 to 40 printable bytes.
    pub fn title(&self) -> &Text
        ensures title { result.now ≡ self.now.title }
        ensures plant { IsPlant self.now }
    {
        &self.parts.service.title
    }

    /// How the plant is served.
    pub fn server(&self) -> &Server
        ensures server { result.now ≡ self.now.server }
        ensures plant { IsPlant self.now }
    {
        &self.parts.service.server
    }

    /// The sources, in the order of their numbers.
    pub fn sources(&self) -> &[Source]
        ensures sources { result.now ≡ self.now.sources }
        ensures plant { IsPlant self.now }
    {
        self.parts.routing.sources.as_slice()
    }

    /// The names of the destinations, in the order of their numbers.
    pub fn dest_names(&self) -> &[Name]
        ensures names { result.now ≡ self.now.dest_names }
        ensures plant { IsPlant self.now }
    {
        self.parts.routing.dest_names.as_slice()
    }

    /// The pools of tie-lines, in the order of their numbers.
    pub fn pools(&self) -> &[Pool]
        ensures pools { result.now ≡ self.now.pools }
        ensures plant { IsPlant self.now }
    {
        self.parts.routing.pools.as_slice()
    }

    /// Whether some pool keeps ties for masters. The pools aren't looked through.
    #[inline]
    pub fn has_reserve(&self) -> bool
        ensures has { result ≡ has_reserve self.now }
        ensures plant { IsPlant self.now }
    {
        self.parts.routing.pools.keep_some()
    }

    /// The devices, in the order of their numbers.
    pub fn devices(&self) -> &[Device]
        ensures devices { result.now ≡ self.now.devices }
        ensures plant { IsPlant self.now }
    {
        self.parts.mixing.devices.as_slice()
    }

    /// The buses, in the order of their numbers: those of one device stand together.
    pub fn buses(&self) -> &[Bus]
        ensures buses { result.now ≡ self.now.buses }
        ensures plant { IsPlant self.now }
    {
        self.parts.mixing.buses.as_slice()
    }

    /// The destinations that are on air, each once.
    pub fn air(&self) -> &[DestId]
        ensures air { result.now ≡ self.now.air }
        ensures plant { IsPlant self.now }
    {
        self.parts.mixing.air.as_slice()
    }

    /// The destinations that are on preview, each once.
    pub fn preview(&self) -> &[DestId]
        ensures preview { result.now ≡ self.now.preview }
        ensures plant { IsPlant self.now }
    {
        self.parts.mixing.preview.as_slice()
    }

    /// The displays, in the order of their numbers.
    pub fn displays(&self) -> &[Display]
        ensures displays { result.now ≡ self.now.displays }
        ensures plant { IsPlant self.now }
    {
        self.parts.service.displays.as_slice()
    }

    /// The screens, ascending, each once: those that displays are on.
    pub fn screens(&self) -> &[u16]
        ensures screens { result.now ≡ screens_of self.now }
        ensures plant { IsPlant self.now }
    {
        self.parts.service.displays.screens()
    }

    /// Whether the plant has a screen: some display is on it. The displays aren't looked through.
    pub fn has_screen(&self, screen: u16) -> bool
        ensures has { result ≡ has_screen self.now screen }
        ensures plant { IsPlant self.now }
    {
        self.parts.service.displays.has_screen(screen)
    }

    /// The screen of a number, `None` where no display is on it.
    #[tactic(auto, using(crate::proofs::ScreenLemmas::no_screen_past))]
    pub fn screen(&self, number: u64) -> Option<u16>
        ensures screen { result ≡ screen_of self.now number }
        ensures plant { IsPlant self.now }
    {
        let displays = &self.parts.service.displays;
        let screen = u16::try_from(number).ok()?;
        if displays.has_screen(screen) {
            Some(screen)
        } else {
            None
        }
    }

    /// How many sources the plant has in all.
    pub fn source_count(&self) -> u32
        ensures count { result ≡ sources_of self.now }
        ensures plant { IsPlant self.now }
    {
        self.parts.routing.sources.len() as u32
    }

    /// The local source that a source stands for, itself where it is local.
    pub fn origin(&self, source: SourceId) -> SourceId
        requires { source < sources_of self.now }
        ensures origin { origin_of self.now source ≡ Some result }
        ensures local { is_local self.now result ≡ true }
        ensures below { result < sources_of self.now }
    {
        self.parts.routing.sources[source.get() as usize].origin
    }

    /// The pool of tie-lines that leads to a source, `None` where it is local.
    pub fn pool_of(&self, source: SourceId) -> Option<PoolId>
        requires { source < sources_of self.now }
        ensures pool { result ≡ pool_of self.now source }
        ensures below { IfSome result (λ pool. pool < length self.now.pools) }
    {
        self.parts.routing.sources[source.get() as usize].pool
    }

    /// A pool of tie-lines.
    pub fn pool(&self, pool: PoolId) -> Pool
        requires { pool < length self.now.pools }
        ensures pool { slice_get self.now.pools pool ≡ Some result }
        ensures plant { IsPlant self.now }
    {
        self.parts.routing.pools.as_slice()[pool.get() as usize]
    }

    /// The name of a source, 1 to 12 printable bytes.
    pub fn source_name(&self, source: SourceId) -> &[u8]
        requires { source < sources_of self.now }
        ensures named { source_name_of self.now source ≡ Some result.now }
        ensures name { IsName result.now }
    {
        self.parts.routing.sources[source.get() as usize]
            .name
            .as_bytes()
    }
}
