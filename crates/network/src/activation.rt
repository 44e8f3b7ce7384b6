// What a neuron makes of its net value, and the byte that stands for it.
ghost use Rattle.std.specs.Prelude.{◌≡◌};
ghost use Rattle.network.specs.Codes.{known_activation};

use super::code::UnknownCode;

#[derive(Clone, Copy, PartialEq, Eq, Debug)]
pub enum Activation {
    Identity,
    Tanh,
}

impl TryFrom<u8> for Activation {
    type Error = UnknownCode;

    ghost try_from_gives = { λ code read. read ≡ known_activation code };

    fn try_from(code: u8) -> Result<Activation, UnknownCode> {
        match code {
            0 => Ok(Activation::Identity),
            1 => Ok(Activation::Tanh),
            _ => Err(UnknownCode(code)),
        }
    }
}
