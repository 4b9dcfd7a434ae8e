//! A field at its place, and a value that is in its form.
ghost use Rattle.std.specs.Prelude.{◌≡◌, ◌≤◌, map};
ghost use Rattle.agent_events.specs.Forms as form;
ghost use Rattle.request_fields.specs.Reading.{Gives};

use crate::fault::FormFault;

/// The field at this place, from 1; past the last it is empty.
pub(crate) fn field<'a>(fields: &[&'a [u8]], place: u8) -> &'a [u8]
    requires { 1 ≤ place }
    ensures { result.now ≡ form.field (map (λ text. text.now) fields.now) place }
{
    match fields.get(place as usize - 1) {
        Some(text) => text,
        None => &[],
    }
}

/// A field in its form, or its place.
pub(crate) fn at<T>(place: u8, value: Option<T>) -> Result<T, FormFault>
    ensures { Gives result (form.at place value) }
{
    match value {
        Some(value) => Ok(value),
        None => Err(FormFault::Place(place)),
    }
}
