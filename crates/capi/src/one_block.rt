// One block of a seed, written in a lent space.
ghost use Rattle.std.specs.Prelude.{◌≡◌};
ghost use Rattle.calls.specs.Outcome.{answered};
ghost use Rattle.capi.specs.Block.{block_exit};

use calls::Refusal;
use expander::Expander;

// Writes block j of a seed of 16 bytes, or says what refuses this.
pub(crate) fn write_block(
    expander: u64,
    seed: &[u8],
    j: u64,
    block: &mut [u8],
) -> Result<u64, Refusal>
    ensures { answered result block.new ≡ block_exit expander seed.now j block.old }
{
    let e = Expander::try_from(expander)?;
    if seed.len() != 16 {
        return Err(Refusal::Lengths);
    }
    if block.len() < 16 {
        return Err(Refusal::NoSpace);
    }
    let bytes = expander::block(e, places::read16(seed, 0), j);
    places::write16(block, 0, bytes);
    Ok(16)
}
