//! The fields of a row, as they are formed.
ghost use Rattle.std.specs.Prelude.{◌≡◌, ◌++◌, map, string_bytes, OnOk};
ghost use Rattle.{csv.specs.Records.{fields_of}, study.specs.Settings.{chosen}};
ghost use Rattle.sweep.specs.{Layout.{number_text}, StudyText.{values}};

use csv::StringRecord;
use itoa::Buffer;
use std::alloc::AllocError;
use study::Choice;

/// Adds numbers, each of which may not be there.
pub(crate) fn push_numbers(
    fields: &mut StringRecord,
    numbers: &[Option<u128>],
) -> Result<(), AllocError>
    ensures { OnOk result (fields_of fields.new ≡ fields_of fields.old ++ map number_text numbers.now) }
{
    for number in numbers {
        let mut buffer = Buffer::new();
        match number {
            None => fields.push_field("")?,
            Some(number) => fields.push_field(buffer.format(*number))?,
        }
    }
    Ok(())
}

/// Adds texts.
pub(crate) fn push_texts(fields: &mut StringRecord, texts: &[String]) -> Result<(), AllocError>
    ensures { OnOk result (fields_of fields.new ≡ fields_of fields.old ++ map string_bytes texts.now) }
{
    for text in texts {
        fields.push_field(text.as_str())?;
    }
    Ok(())
}

/// Adds what keys are set to.
pub(crate) fn push_settings(
    fields: &mut StringRecord,
    settings: &[Choice<'_>],
) -> Result<(), AllocError>
    ensures { OnOk result (fields_of fields.new ≡ fields_of fields.old ++ values (map chosen settings.now)) }
{
    for choice in settings {
        let mut buffer = Buffer::new();
        fields.push_field(choice.value.text(&mut buffer))?;
    }
    Ok(())
}
