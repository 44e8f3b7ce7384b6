// The kinds of records, and the byte that stands for each.
ghost use Rattle.std.specs.Prelude.{◌≡◌, Ok};
ghost use Rattle.network.specs.Codes.{code_of, known_kind};

use super::code::UnknownCode;

#[derive(Clone, Copy, PartialEq, Eq, Debug)]
pub enum RecordKind {
    Layer,
    Bias,
    Weight,
    Sample,
}

impl RecordKind {
    // The byte that stands for it.
    pub(crate) fn code(self) -> u8
        ensures answer { result ≡ code_of self }
        ensures means { known_kind result ≡ Ok self }
    {
        match self {
            RecordKind::Layer => 1,
            RecordKind::Bias => 2,
            RecordKind::Weight => 3,
            RecordKind::Sample => 4,
        }
    }
}

impl TryFrom<u8> for RecordKind {
    type Error = UnknownCode;

    ghost try_from_gives = { λ code read. read ≡ known_kind code };

    fn try_from(code: u8) -> Result<RecordKind, UnknownCode> {
        match code {
            1 => Ok(RecordKind::Layer),
            2 => Ok(RecordKind::Bias),
            3 => Ok(RecordKind::Weight),
            4 => Ok(RecordKind::Sample),
            _ => Err(UnknownCode(code)),
        }
    }
}
