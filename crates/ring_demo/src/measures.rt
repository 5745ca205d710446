//! What a seed decides.

ghost use Rattle.std.specs.Prelude.{◌≡◌, ◌≤◌};
ghost use Rattle.ring_demo.specs.Measures.{domains_of, hops_of, nodes_of, steps_of};

/// The greatest seed.
pub const MAX_SEED: u32 = 999_999_999;

/// How many domains stand in the ring: 2 to 8.
pub(crate) fn domains_of(seed: u32) -> u32
    ensures { result ≡ domains_of seed }
{
    2 + seed % 7
}

/// How many nodes a ring has: 20 to 200.
pub(crate) fn nodes_of(seed: u32) -> u32
    ensures { result ≡ nodes_of seed }
{
    20 + seed / 7 % 181
}

/// How often a ring is handed on: 10 to 60 times.
pub(crate) fn hops_of(seed: u32) -> u32
    ensures { result ≡ hops_of seed }
{
    10 + seed / 1267 % 51
}

/// How many steps each thread takes at a time: 1 to 997.
pub(crate) fn steps_of(seed: u32) -> u32
    ensures { result ≡ steps_of seed }
{
    1 + seed % 997
}
