//! The request that a line tells.

ghost use Rattle.std.specs.Prelude.{◌≡◌, ◌++◌, ℕ, Bool, List, codes, Some, IfSome};
ghost use Rattle.std.specs.Option.{IsSomeAnd};
ghost use Rattle.swp08_messages.specs.declared.message.Message.{Message};
ghost use Rattle.plant_config.specs.IsPlant.{IsPlant};
ghost use Rattle.plant_core.specs.declared.request.Request.{Request};
ghost use Rattle.plant_core.specs.declared.request.Request.TheVariants as requests;
ghost use Rattle.trace_lines.specs.LineInside.{BeginsWithRequest, BeginsWithPanel};
ghost use Rattle.trace_lines.specs.LineInside.{BeginsWithScreen};

use crate::reading::field::{behind, read_message, read_number};
use plant_config::{PanelNo, Plant};
use plant_core::Request;

// The request that a text begins with, which fits the plant, and what stands behind the space there.
pub(crate) fn read_request<'t>(plant: &Plant, text: &'t [u8]) -> Option<(Request, &'t [u8])>
    ensures found { IfSome result
        (λ found. BeginsWithRequest plant.now text.now found.0 found.1.now) }
    ensures only { (request : Request) (behind : List ℕ)
        → BeginsWithRequest plant.now text.now request behind
        → IsSomeAnd result (λ found. (found.0 ≡ request) × (found.1.now ≡ behind)) }
{
    if let Some(told) = behind(b"told ", text) {
        return read_told(plant, told);
    }
    if let Some(polled) = behind(b"poll ", text) {
        return read_poll(plant, polled);
    }
    if let Some(left) = behind(b"leave ", text) {
        return read_leave(plant, left);
    }
    if let Some(shown) = behind(b"show ", text) {
        return read_show(plant, shown);
    }
    None
}

// What was told, by what a line has behind `told `.
fn read_told<'t>(plant: &Plant, text: &'t [u8]) -> Option<(Request, &'t [u8])>
    ensures found { IfSome result
        (λ found. BeginsWithRequest plant.now (codes "told " ++ text.now) found.0 found.1.now) }
    ensures only { (panel item : ℕ) (message : Message) (behind : List ℕ)
        → BeginsWithRequest plant.now (codes "told " ++ text.now)
        (requests.Told panel item message) behind
        → IsSomeAnd result (λ found. (found.0 ≡ requests.Told panel item message)
        × (found.1.now ≡ behind)) }
{
    let Some((panel, numbered)) = read_panel(plant, text) else {
        return None;
    };
    let Some((item, told)) = read_number(numbered) else {
        return None;
    };
    let Some((message, rest)) = read_message(told) else {
        return None;
    };
    Some((
        Request::Told {
            panel: PanelNo::of(panel),
            item,
            message,
        },
        rest,
    ))
}

// What was polled, by what a line has behind `poll `.
fn read_poll<'t>(plant: &Plant, text: &'t [u8]) -> Option<(Request, &'t [u8])>
    ensures found { IfSome result
        (λ found. BeginsWithRequest plant.now (codes "poll " ++ text.now) found.0 found.1.now) }
    ensures only { (panel item turn : ℕ) (behind : List ℕ)
        → BeginsWithRequest plant.now (codes "poll " ++ text.now)
        (requests.Poll panel item turn) behind
        → IsSomeAnd result (λ found. (found.0 ≡ requests.Poll panel item turn)
        × (found.1.now ≡ behind)) }
{
    let Some((panel, item)) = read_panel(plant, text) else {
        return None;
    };
    let Some((at, polled)) = read_number(item) else {
        return None;
    };
    let Some((turn, rest)) = read_number(polled) else {
        return None;
    };
    Some((
        Request::Poll {
            panel: PanelNo::of(panel),
            at,
            turn,
        },
        rest,
    ))
}

// Which panel left, by what a line has behind `leave `.
fn read_leave<'t>(plant: &Plant, text: &'t [u8]) -> Option<(Request, &'t [u8])>
    ensures found { IfSome result
        (λ found. BeginsWithRequest plant.now (codes "leave " ++ text.now) found.0 found.1.now) }
    ensures only { (panel : ℕ) (behind : List ℕ)
        → BeginsWithRequest plant.now (codes "leave " ++ text.now) (requests.Leave panel) behind
        → IsSomeAnd result (λ found. (found.0 ≡ requests.Leave panel)
        × (found.1.now ≡ behind)) }
{
    let Some((panel, rest)) = read_panel(plant, text) else {
        return None;
    };
    Some((
        Request::Leave {
            panel: PanelNo::of(panel),
        },
        rest,
    ))
}

// Which screen was polled, by what a line has behind `show `.
fn read_show<'t>(plant: &Plant, text: &'t [u8]) -> Option<(Request, &'t [u8])>
    ensures found { IfSome result
        (λ found. BeginsWithRequest plant.now (codes "show " ++ text.now) found.0 found.1.now) }
    ensures only { (screen : ℕ) (refresh : Bool) (behind : List ℕ)
        → BeginsWithRequest plant.now (codes "show " ++ text.now)
        (requests.DisplayPoll screen refresh) behind
        → IsSomeAnd result (λ found. (found.0 ≡ requests.DisplayPoll screen refresh)
        × (found.1.now ≡ behind)) }
{
    let Some((screen, refresh)) = read_screen(plant, text) else {
        return None;
    };
    if let Some(rest) = behind(b"0 ", refresh) {
        return Some((
            Request::DisplayPoll {
                screen,
                refresh: false,
            },
            rest,
        ));
    }
    if let Some(rest) = behind(b"1 ", refresh) {
        return Some((
            Request::DisplayPoll {
                screen,
                refresh: true,
            },
            rest,
        ));
    }
    None
}

// The number of a panel of the plant that a text begins with.
fn read_panel<'t>(plant: &Plant, text: &'t [u8]) -> Option<(u32, &'t [u8])>
    ensures found { IfSome result
        (λ found. BeginsWithPanel plant.now text.now found.0 found.1.now) }
    ensures only { (panel : ℕ) (behind : List ℕ)
        → BeginsWithPanel plant.now text.now panel behind
        → IsSomeAnd result (λ found. (found.0 ≡ panel) × (found.1.now ≡ behind)) }
    ensures plant { IsPlant plant.now }
{
    let panels = plant.panels().len() as u64;
    let Some((number, rest)) = read_number(text) else {
        return None;
    };
    if number < panels {
        Some((number as u32, rest))
    } else {
        None
    }
}

// The screen of the plant whose number a text begins with.
fn read_screen<'t>(plant: &Plant, text: &'t [u8]) -> Option<(u16, &'t [u8])>
    ensures found { IfSome result
        (λ found. BeginsWithScreen plant.now text.now found.0 found.1.now) }
    ensures only { (screen : ℕ) (behind : List ℕ)
        → BeginsWithScreen plant.now text.now screen behind
        → IsSomeAnd result (λ found. (found.0 ≡ screen) × (found.1.now ≡ behind)) }
    ensures plant { IsPlant plant.now }
{
    // kit: what is true of every plant is learnt from a reader's clause alone, also where a line has no number.
    let _screens = plant.screens();
    let (number, rest) = read_number(text)?;
    let screen = plant.screen(number)?;
    Some((screen, rest))
}
