//! The draws of a panel.

ghost use Rattle.std.specs.Prelude.{◌≡◌};
ghost use Rattle.drill.specs.Draws.{drawn, first_seed, next_seed};

// The seed at which the draws of a panel begin.
pub(crate) fn first_seed(number: u64, panel: u32) -> u64
    ensures { result ≡ first_seed number panel }
{
    number.wrapping_add(u64::from(panel).wrapping_mul(11_400_714_819_323_198_485))
}

// The next draw, 31 bits.
pub(crate) fn draw(seed: &mut u64) -> u32
    ensures seed { seed.new ≡ next_seed seed.old }
    ensures drawn { result ≡ drawn (next_seed seed.old) }
{
    *seed = seed
        .wrapping_mul(6_364_136_223_846_793_005)
        .wrapping_add(1_442_695_040_888_963_407);
    (*seed >> 33) as u32
}
