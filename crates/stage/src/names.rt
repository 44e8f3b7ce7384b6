// A word that names nothing of the kind that was asked for.

#[derive(Clone, Copy, PartialEq, Eq, Debug)]
pub struct UnknownName;
