// Numbers drawn from the generator.
ghost use Rattle.std.specs.Prelude.{◌≡◌, ◌<◌, ◌≤◌};
ghost use Rattle.mq_gen.specs.Made.{draw};

use rand_core::utils::NextWord;
use rand_pcg::Lcg64Xsh32;

/// Returns the generator's next output modulo `m`, which is at
/// least 1.
pub(crate) fn draw(generator: &mut Lcg64Xsh32, m: u32) -> u32
    requires { 1 ≤ m }
    ensures drawn { result ≡ (draw m generator.old).0 }
    ensures below { result < m }
    ensures moved { generator.new ≡ (draw m generator.old).1 }
{
    generator.next_word() % m
}
