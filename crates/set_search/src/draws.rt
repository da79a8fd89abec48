// Numbers at random.
ghost use Rattle.std.specs.Prelude.{◌<◌, ◌≤◌};

use rand_core::Rng;
use rand_pcg::Lcg64Xsh32;

// A number below a limit.
pub(crate) fn draw(generator: &mut Lcg64Xsh32, limit: u32) -> u32
    requires { 1 ≤ limit }
    ensures { result < limit }
{
    generator.next_u32() % limit
}

/// Puts numbers in random order, in time in proportion to them.
pub fn shuffle(numbers: &mut [u32], generator: &mut Lcg64Xsh32) {
    for i in 1..numbers.len() {
        let Ok(limit) = u32::try_from(i + 1) else {
            break;
        };
        numbers.swap(i, draw(generator, limit) as usize);
    }
}
