// Reads a request, word by word.
ghost use Rattle.std.specs.Prelude.{◌≡◌};
ghost use Rattle.trace.specs.Reader.{ReadBy, put_in, blank, advanced, chosen_in, taken_in, finished, help_in, Reads};

use super::request::{Misfit, Request, RequestFault, Wanted};
use cordic::Mode;
use stage::{Kind, System, Triple};
use std::alloc::Global;
use std::str::FromStr;

// The five words of a request, as far as they have come.
#[derive(Clone, Copy)]
enum Progress {
    Empty,
    ToSystem(System),
    ToMode(System, Mode),
    ToX(System, Mode, i32),
    ToY(System, Mode, i32, i32),
    Full(System, Mode, Triple),
}

// The word as a value of this type.
fn read<T: FromStr>(word: &str, wanted: Wanted) -> Result<T, Misfit>
where
    T::Err: Drop,
    ensures answer { ReadBy T.FromStr.from_str_gives word.now wanted result }
{
    word.parse().map_err(|_| Misfit::Not(wanted))
}

impl Progress {
    // One word more.
    #[tactic(auto, using(crate::proofs::Reading::number_unfound))]
    fn put(self, word: &str) -> Result<Progress, Misfit>
        ensures answer { result ≡ put_in self word.now }
    {
        Ok(match self {
            Progress::Empty => Progress::ToSystem(read(word, Wanted::System)?),
            Progress::ToSystem(system) => Progress::ToMode(system, read(word, Wanted::Mode)?),
            Progress::ToMode(system, mode) => Progress::ToX(system, mode, read(word, Wanted::X)?),
            Progress::ToX(system, mode, x) => {
                let y = read(word, Wanted::Y)?;
                Progress::ToY(system, mode, x, y)
            }
            Progress::ToY(system, mode, x, y) => {
                let z = read(word, Wanted::Z)?;
                Progress::Full(system, mode, Triple { x, y, z })
            }
            Progress::Full(_, _, _) => return Err(Misfit::Extra),
        })
    }
}

// A request that is being read. After `--stage` it has no kind, and the next word names one.
#[derive(Clone, Copy)]
struct Draft {
    progress: Progress,
    kind: Option<Kind>,
    probe: bool,
}

impl Draft {
    fn new() -> Draft
        ensures answer { result ≡ blank }
    {
        Draft {
            progress: Progress::Empty,
            kind: Some(Kind::Parallel),
            probe: false,
        }
    }

    // One word more, an option or one of the five.
    fn take(self, word: &str) -> Result<Draft, Misfit>
        ensures answer { result ≡ taken_in self word.now }
    {
        if self.kind.is_none() {
            return self.choose(word);
        }
        match word {
            "--probe" => Ok(Draft {
                probe: true,
                ..self
            }),
            "--stage" => Ok(Draft { kind: None, ..self }),
            _ if word.starts_with("--") => Err(Misfit::Not(Wanted::Setting)),
            _ => self.put(word),
        }
    }

    fn put(self, word: &str) -> Result<Draft, Misfit>
        ensures answer { result ≡ advanced self (put_in self.progress word.now) }
    {
        let progress = self.progress.put(word)?;
        Ok(Draft { progress, ..self })
    }

    // The word after `--stage`.
    fn choose(self, word: &str) -> Result<Draft, Misfit>
        ensures answer { result ≡ chosen_in self word.now }
    {
        let kind = read(word, Wanted::Kind)?;
        Ok(Draft {
            kind: Some(kind),
            ..self
        })
    }

    // The request, or the first that is missing.
    fn finish(self) -> Result<Request, Wanted>
        ensures answer { result ≡ finished self }
    {
        let kind = self.kind.ok_or(Wanted::Kind)?;
        match self.progress {
            Progress::Empty => Err(Wanted::System),
            Progress::ToSystem(_) => Err(Wanted::Mode),
            Progress::ToMode(_, _) => Err(Wanted::X),
            Progress::ToX(_, _, _) => Err(Wanted::Y),
            Progress::ToY(_, _, _, _) => Err(Wanted::Z),
            Progress::Full(system, mode, start) => Ok(Request {
                system,
                mode,
                start,
                kind,
                probe: self.probe,
            }),
        }
    }
}

pub(crate) fn asks_help(words: &[String]) -> bool
    ensures answer { result ≡ help_in words.now }
{
    words
        .iter()
        .any(|word| matches!(word.as_str(), "--help" | "-h"))
}

// The request that the words are, or the first word that is wrong.
pub(crate) fn read_request(heap: Global, words: &[String]) -> Result<Request, RequestFault>
    ensures answer { Reads words.now result }
{
    let mut draft = Draft::new();
    for word in words {
        // the word's copy can fail, which a closure of `map_err` could not say
        match draft.take(word.as_str()) {
            Ok(further) => draft = further,
            Err(misfit) => {
                let word = String::from_str(heap, word.as_str())?;
                return Err(RequestFault::Word { word, misfit });
            }
        }
    }
    draft.finish().map_err(RequestFault::Missing)
}
