//! What a message tells, or where a required field is missing.

ghost use Rattle.std.specs.Prelude.{◌≡◌, Ok, Err};
ghost use Rattle.hd_base.specs.Results.{with_cause};
ghost use Rattle.op_headers.specs.Paths.{only, below};
ghost use Rattle.op_headers.specs.Tables.{decoded_field, decoded_message, Required, Optional};

use std::fmt::{self, Display, Formatter, Write};

/// The field numbers that lead to a field from the top, filled with zeros.
pub(crate) type Path = [u8; 4];

/// A path as errors print it: the field numbers before the first zero, joined by dots, as in `1.2`.
#[derive(Clone, Copy)]
pub(crate) struct FieldPath(pub Path);

impl Display for FieldPath {
    fn fmt<W: Write>(&self, f: &mut Formatter<W>) -> fmt::Result {
        let mut separator = "";
        for number in self.0 {
            if number == 0 {
                break;
            }
            f.write_str(separator)?;
            Display::fmt(&number, f)?;
            separator = ".";
        }
        Ok(())
    }
}

/// A value that a message tells, or the path of the first required field that is missing.
pub(crate) type Decoded<T> = Result<T, Path>;

/// The path of a field of the message itself.
fn only_field(field: u8) -> Path
    ensures { result ≡ only field }
{
    [field, 0, 0, 0]
}

/// The path of a field within the message that the field holds.
fn below_field(field: u8, path: Path) -> Path
    ensures { result ≡ below field path }
{
    let [first, second, third, _] = path;
    [field, first, second, third]
}

/// The value of a field that must be there.
pub(crate) fn required<T: Drop>(field: u8, value: Option<T>) -> Decoded<T>
    ensures { result ≡ decoded_field Required field value }
{
    match value {
        Some(value) => Ok(value),
        None => Err(only_field(field)),
    }
}

/// What is decoded within the message that the field holds.
pub(crate) fn within<T: Drop>(field: u8, decoded: Decoded<T>) -> Decoded<T>
    ensures { result ≡ with_cause (below field) decoded }
{
    match decoded {
        Ok(value) => Ok(value),
        Err(path) => Err(below_field(field, path)),
    }
}

/// The message that a field must hold.
pub(crate) fn required_message<M: Drop>(field: u8, message: Option<Decoded<M>>) -> Decoded<M>
    ensures { result ≡ decoded_message Required field message }
{
    match message {
        Some(decoded) => within(field, decoded),
        None => Err(only_field(field)),
    }
}

/// The message that a field may hold.
pub(crate) fn optional_message<M: Drop>(
    field: u8,
    message: Option<Decoded<M>>,
) -> Decoded<Option<M>>
    ensures { result ≡ decoded_message Optional field message }
{
    match message {
        Some(Ok(value)) => Ok(Some(value)),
        Some(Err(path)) => Err(below_field(field, path)),
        None => Ok(None),
    }
}
