//! The window of a standby.

ghost use Rattle.std.specs.Prelude.{◌≡◌, ◌+◌, ◌<◌, ◌≤◌, length, count_by, is_some, replicate};
ghost use Rattle.std.specs.Prelude.{slice_get, slice_set, Some, None, IfOk, MatchOption};
ghost use Rattle.standby.specs.Standby.{moved_on};
ghost use Rattle.standby.specs.StandbyInside.{most_places, count_at};

use plant_core::Request;
use std::alloc::{AllocError, Global};
use std::collections::VecDeque;
use std::marker::Model;

/// A ring of places, one for each position from a first one on, each empty or with the request that is kept for its position.
/// A place is found at once by how far its position is from the first.
#[derive(Drop)]
pub(crate) struct Window {
    places: VecDeque<Option<Request>>,
    // How many have a request.
    kept: u64,
}

impl Model for Window {
    ghost use Rattle.standby.specs.Standby as standbys;
    ghost use Rattle.standby.specs.StandbyInside.{IsWindow};

    ghost Value = { standbys.Window };

    ghost view = { λ window. window.places.items };

    ghost invariant = { λ window. IsWindow window.kept window.places.items };
}

impl Window {
    /// So many places, all of them empty.
    pub(crate) fn new(alloc: Global, places: u32) -> Result<Window, AllocError>
        requires { places ≤ most_places }
        ensures { IfOk result (λ window. window ≡ replicate places None) }
    {
        let places = vec![in alloc; None; places as usize]?;
        Ok(Window {
            places: VecDeque::from_vec(places),
            kept: 0,
        })
    }

    /// How many places there are.
    pub(crate) fn places(&self) -> u64
        ensures places { result ≡ length self.now }
        ensures most { result ≤ most_places }
    {
        self.places.len() as u64
    }

    /// How many requests are kept.
    pub(crate) fn kept(&self) -> u64
        ensures { result ≡ count_by is_some self.now }
    {
        self.kept
    }

    /// The request that is kept at a place, `None` where it is empty.
    pub(crate) fn at(&self, offset: u64) -> Option<&Request>
        requires { offset < length self.now }
        ensures { MatchOption result
            (slice_get self.now offset ≡ Some None)
            (λ request. slice_get self.now offset ≡ Some (Some request.now)) }
    {
        self.places[offset as usize].as_ref()
    }

    /// Keeps a request at an empty place.
    pub(crate) fn keep(&mut self, offset: u64, request: &Request)
        requires { slice_get self.old offset ≡ Some None }
        ensures { self.new ≡ slice_set self.old offset (Some request.now) }
    {
        self.places[offset as usize] = Some(*request);
        self.kept += 1;
    }

    /// The first place, which is empty, comes behind the others. What is kept at the place that is the first from then on is
    /// taken from it.
    pub(crate) fn move_on(&mut self) -> Option<Request>
        requires { slice_get self.old 0 ≡ Some None }
        ensures request { slice_get (moved_on 1 self.old) 0 ≡ Some result }
        ensures window { self.new ≡ slice_set (moved_on 1 self.old) 0 None }
        ensures count { count_by is_some self.new + count_at result ≡ count_by is_some self.old }
    {
        // Short way: where nothing is kept all places are empty, and stay so.
        if self.kept == 0 {
            return None;
        }
        self.places.rotate_left(1);
        let first = self.places[0].take();
        if first.is_some() {
            self.kept -= 1;
        }
        first
    }
}
