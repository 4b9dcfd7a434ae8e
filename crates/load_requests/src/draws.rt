//! The draws of a load.
ghost use Rattle.std.specs.Prelude.{◌≡◌};
ghost use Rattle.load_requests.specs.Draws as spec;

/// The multiplier of Knuth's MMIX.
const MULTIPLIER: u64 = 6_364_136_223_846_793_005;

/// Its increment.
const INCREMENT: u64 = 1_442_695_040_888_963_407;

/// The state after one more draw.
#[tactic(auto, unfolding(crate::specs::Draws::next_state))]
pub(crate) fn next_state(state: u64) -> u64
    ensures { result ≡ spec.next_state state }
{
    MULTIPLIER.wrapping_mul(state).wrapping_add(INCREMENT)
}

/// What a draw gives, by the state after it.
pub(crate) fn draw_of(state: u64) -> u64
    ensures { result ≡ spec.draw_of state }
{
    state >> 33
}
