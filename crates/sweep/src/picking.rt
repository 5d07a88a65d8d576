//! Fields of a row that are put into another.
ghost use Rattle.std.specs.Prelude.{◌≡◌, ◌++◌, [], get_or, OnOk};
ghost use Rattle.{csv.specs.Records.{fields_of}, sweep.specs.Layout.{picked}};

use csv::StringRecord;
use std::alloc::AllocError;

/// The field at a place, from 0; where there is none it is empty.
fn field_of(fields: &StringRecord, place: usize) -> &str
    ensures { result.now ≡ get_or (fields_of fields.now) place [] }
{
    match fields.get(place) {
        Some(field) => field,
        None => "",
    }
}

/// Adds the fields at these places of a row.
pub(crate) fn push_picked(
    fields: &mut StringRecord,
    all: &StringRecord,
    places: &[usize],
) -> Result<(), AllocError>
    ensures { OnOk result (fields_of fields.new ≡ fields_of fields.old ++ picked places.now (fields_of all.now)) }
{
    for place in places {
        fields.push_field(field_of(all, *place))?;
    }
    Ok(())
}
