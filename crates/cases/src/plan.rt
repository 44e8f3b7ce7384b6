// Reads the plan of a run.
ghost use Rattle.std.specs.Prelude.{◌≡◌, IfOk, vec_items};
ghost use Rattle.std.specs.Option.{option_map};
ghost use Rattle.std.specs.Result.{result_ok};
ghost use Rattle.cases.specs.Digits.{digits_in};
ghost use Rattle.hex.specs.Hex.{decode_of};

use super::request::{RequestFault, Wanted};
use hex::FromHexError;
use std::alloc::{AllocError, Global};

// Is each character a hex digit? (A fold, which is done for many characters at a time; `all`, which stops early, takes several times as long.)
fn are_digits(text: &[u8]) -> bool
    ensures answer { result ≡ digits_in text.now }
{
    text.iter()
        .fold(true, |digits, c| digits & c.is_ascii_hexdigit())
}

// The bytes of hex digits, two to a byte. None where a character is no hex digit, or the last one stands alone. (What is no digit is looked for
// first: `decode` takes memory for all bytes before it looks at one.)
fn read_bytes(heap: Global, text: &str) -> Result<Option<Vec<u8>>, AllocError>
    ensures answer { IfOk result (λ o. option_map vec_items o ≡ result_ok (decode_of text.now)) }
{
    if !are_digits(text.as_bytes()) {
        return Ok(None);
    }
    match hex::decode(heap, text) {
        Ok(bytes) => Ok(Some(bytes)),
        Err(FromHexError::OutOfMemory) => Err(AllocError),
        Err(_) => Ok(None),
    }
}

pub(crate) fn read_plan(heap: Global, word: &str) -> Result<Vec<u8>, RequestFault> {
    if word == "-" {
        return Ok(Vec::new(heap));
    }
    let plan = read_bytes(heap, word)?.filter(|bytes| !bytes.is_empty());
    Ok(plan.ok_or(Wanted::Plan)?)
}
