//! Values of a report.
ghost use Rattle.std.specs.Prelude.{◌≡◌};
ghost use Rattle.reporting.specs.{Inside.Findings.{value_text}, ReportText.{truth_text, tick_text, detection_text, answer_text}};

use crate::pair_measures::Detection;
use itoa::Buffer;
use judges::Answer;

/// What a row of a report tells.
#[derive(Clone, Copy)]
pub(crate) enum Value {
    /// A number, as a plain decimal.
    Number(u32),
    /// A count.
    Count(u64),
    /// A sum of counts.
    Sum(u128),
    /// A word.
    Word(&'static str),
}

impl Value {
    ghost use Rattle.reporting.specs.Inside.Findings.{value_text};

    /// The text of the value, in the buffer where it is a decimal.
    pub(crate) fn text<'a>(self, buffer: &'a mut Buffer) -> &'a str
        ensures { result.now ≡ value_text self }
    {
        match self {
            Value::Number(number) => buffer.format(number),
            Value::Count(count) => buffer.format(count),
            Value::Sum(sum) => buffer.format(sum),
            Value::Word(word) => word,
        }
    }
}

/// Whether something holds.
pub(crate) fn of_truth(holds: bool) -> Value
    ensures { value_text result ≡ truth_text holds }
{
    Value::Word(if holds { "yes" } else { "no" })
}

/// A tick, if there is one.
pub(crate) fn of_tick(tick: Option<u32>) -> Value
    ensures { value_text result ≡ tick_text tick }
{
    match tick {
        None => Value::Word("none"),
        Some(tick) => Value::Number(tick),
    }
}

/// How long a detection took.
pub(crate) fn of_detection(detection: Detection) -> Value
    ensures { value_text result ≡ detection_text detection }
{
    match detection {
        Detection::Na => Value::Word("na"),
        Detection::NoTick => Value::Word("none"),
        Detection::At(ticks) => Value::Number(ticks),
    }
}

/// What a process decided.
pub(crate) fn of_answer(answer: Answer) -> Value
    ensures { value_text result ≡ answer_text answer }
{
    match answer {
        Answer::None => Value::Word("none"),
        Answer::NoValue => Value::Word("novalue"),
        Answer::Value(value) => Value::Number(value),
    }
}
