// A number made of every register of a list of triples.
ghost use Rattle.std.specs.Prelude.{◌≡◌};
ghost use Rattle.cases.specs.Digest.{mixed, mixed_all, digest_of};

use stage::Triple;

fn mix(hash: u32, register: i32) -> u32
    ensures answer { result ≡ mixed hash register }
{
    hash.wrapping_mul(31).wrapping_add_signed(register)
}

fn mix_triple(hash: u32, t: Triple) -> u32
    ensures answer { result ≡ mixed_all hash t }
{
    mix(mix(mix(hash, t.x), t.y), t.z)
}

pub(crate) fn digest(triples: &[Triple]) -> u32
    ensures answer { result ≡ digest_of triples.now }
{
    triples.iter().fold(0, |hash, t| mix_triple(hash, *t))
}
