// A field of a printed line: a value, or a dash where there is none.
ghost use Rattle.fields.specs.Field.{field_output};

use std::fmt;

#[derive(Clone, Copy, PartialEq, Eq, Debug)]
pub struct Field<T>(pub Option<T>);

impl<T: fmt::Display> fmt::Display for Field<T> {
    ghost output = { λ x. field_output T.output x.0 };

    fn fmt<W: fmt::Write>(&self, f: &mut fmt::Formatter<W>) -> fmt::Result {
        match &self.0 {
            Some(value) => write!(f, "{value}"),
            None => write!(f, "-"),
        }
    }
}
