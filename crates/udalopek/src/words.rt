// The pair that lent words say.
ghost use Rattle.std.specs.Prelude.{◌≡◌};
ghost use Rattle.abi_spec.specs.Pair.{pair_of};

use pair::Pair;

// Always inlined: a call with the pair would write it to memory for every packet.
#[inline(always)]
#[tactic(auto, unfolding(abi_spec::specs::Pair::pair_of))]
pub(crate) fn said(words: &[u64; abi::PAIR]) -> Pair
    ensures { result ≡ pair_of words.now }
{
    abi::pair_said(abi::strays(words), words)
}
