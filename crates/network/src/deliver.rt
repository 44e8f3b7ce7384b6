// The places lent for the outputs.
ghost use Rattle.std.specs.Prelude.{◌≡◌, ◌≤◌, ◌++◌, length, drop};

// The first places become the words; later ones keep what they held.
pub(crate) fn deliver(words: &[i32], out: &mut [i32])
    requires { length words.now ≤ length out.old }
    ensures lent { out.new ≡ words.now ++ drop (length words.now) out.old }
{
    out[..words.len()].copy_from_slice(words);
}
