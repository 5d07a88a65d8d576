//! The values that have a shape, and the faults of a key's value.
ghost use Rattle.std.specs.{Prelude.{◌≡◌, [], false, length, option_map, option_and_then}, Option.{option_map_or}};
ghost use Rattle.toml.specs.{Data.{as_table, get_member}, View.{view, items_view, table_view}};
ghost use Rattle.scenario.specs.Table.{all_items, is_number, keys_of};
ghost use Rattle.scenario.specs.Faults as faults;
ghost use Rattle.network.specs.Fields as fields;
ghost use Rattle.network.specs.Fields.{any_item, field_of, first_of, items_in, mean_in, values_in, takes, lacks_member, has_more, number_outside};

use crate::field::{Field, Shape};
use crate::refusal::ValueFault;
use scenario::{Kind, lies_within};
use toml::{Table, Value};

/// The most values of a gap or a length.
const MOST_VALUES: usize = 100_000;

/// The items of an array; none of another value.
pub(crate) fn items_of(value: &Value) -> &[Value]
    ensures { items_view result.now ≡ items_in (view value.now) }
{
    match value.as_array() {
        Some(items) => items,
        None => &[],
    }
}

/// How many items an array has; none has another value.
#[tactic(auto, using(scenario::proofs::Items::count_view))]
fn count(value: &Value) -> usize
    ensures { result ≡ faults.count (items_in (view value.now)) }
{
    items_of(value).len()
}

/// The value at a key, if there is one.
pub(crate) fn value_at<'a>(table: &'a Table, key: &str) -> Option<&'a Value>
    ensures { option_map (λ v. view v.now) result ≡ get_member key.now (table_view table.now) }
{
    table.get(key)
}

/// The value at a key of a value that is a table, if there is one.
pub(crate) fn value_in<'a>(value: &'a Value, key: &str) -> Option<&'a Value>
    ensures { option_map (λ v. view v.now) result ≡ option_and_then (get_member key.now) (as_table (view value.now)) }
{
    value_at(value.as_table()?, key)
}

/// Whether it is the text that says all processes.
pub(crate) fn is_all(value: &Value) -> bool
    ensures { result ≡ fields.is_all (view value.now) }
{
    match value.as_str() {
        Some(text) => text == "all",
        None => false,
    }
}

/// Whether it is an array of two integers.
fn is_pair(value: &Value) -> bool
    ensures { result ≡ fields.is_pair (view value.now) }
{
    Kind::Numbers.takes(value) && count(value) == 2
}

/// Whether each is an array of integers.
fn are_groups(values: &[Value]) -> bool
    ensures { result ≡ all_items fields.is_numbers (items_view values.now) }
{
    for value in values {
        if !Kind::Numbers.takes(value) {
            return false;
        }
    }
    true
}

/// Whether each is an array of two integers.
fn are_pairs(values: &[Value]) -> bool
    ensures { result ≡ all_items fields.is_pair (items_view values.now) }
{
    for value in values {
        if !is_pair(value) {
            return false;
        }
    }
    true
}

/// How many keys a table has.
#[tactic(auto, using(crate::proofs::Keys::keys_counted))]
fn key_count(table: &Table) -> usize
    ensures { result ≡ length (keys_of (table_view table.now)) }
{
    table.len()
}

/// How many keys a table has; none has another value.
fn keys_in(value: &Value) -> usize
    ensures { result ≡ length (option_map_or keys_of (as_table (view value.now)) []) }
{
    match value.as_table() {
        Some(table) => key_count(table),
        None => 0,
    }
}

/// Whether a table has `values`, an array of integers.
fn has_values(value: &Value) -> bool
    ensures { result ≡ option_map_or fields.is_numbers (values_in (view value.now)) false }
{
    match value_in(value, "values") {
        Some(values) => Kind::Numbers.takes(values),
        None => false,
    }
}

/// Whether a table has the integer `mean`, or else `values`, an array of integers.
fn has_mean_or_values(value: &Value) -> bool
    ensures { result ≡ option_map_or is_number (mean_in (view value.now))
        (option_map_or fields.is_numbers (values_in (view value.now)) false) }
{
    match value_in(value, "mean") {
        Some(mean) => mean.is_integer(),
        None => has_values(value),
    }
}

/// Whether it is a table that says a gap or a length.
#[tactic(auto, unfolding(crate::specs::Fields::is_spell_table))]
fn is_spell_table(value: &Value) -> bool
    ensures { result ≡ fields.is_spell_table (view value.now) }
{
    keys_in(value) == 1 && has_mean_or_values(value)
}

/// Whether it is an array without a member.
fn is_empty_array(value: &Value) -> bool
    ensures { result ≡ fields.is_empty_array (view value.now) }
{
    value.is_array() && count(value) == 0
}

/// Whether some one is an array without a member.
fn has_empty_array(values: &[Value]) -> bool
    ensures { result ≡ any_item fields.is_empty_array (items_view values.now) }
{
    for value in values {
        if is_empty_array(value) {
            return true;
        }
    }
    false
}

/// The number, where it lies outside the ends.
fn outside(value: &Value, low: u32, high: u32) -> Option<i64>
    ensures { result ≡ fields.outside low high (view value.now) }
{
    let number = value.as_integer()?;
    if lies_within(number, u64::from(low), u64::from(high)) {
        None
    } else {
        Some(number)
    }
}

/// The first of some numbers that lies outside the ends.
fn first_outside_of(values: &[Value], low: u32, high: u32) -> Option<i64>
    ensures { result ≡ first_of (fields.outside low high) (items_view values.now) }
{
    for value in values {
        if let Some(number) = outside(value, low, high) {
            return Some(number);
        }
    }
    None
}

/// The first number of an array that lies outside the ends.
fn first_outside(value: &Value, low: u32, high: u32) -> Option<i64>
    ensures { result ≡ fields.first_outside low high (view value.now) }
{
    first_outside_of(items_of(value), low, high)
}

/// The first number of some arrays that lies outside the ends.
fn first_outside_each(values: &[Value], low: u32, high: u32) -> Option<i64>
    ensures { result ≡ first_of (fields.first_outside low high) (items_view values.now) }
{
    for value in values {
        if let Some(number) = first_outside(value, low, high) {
            return Some(number);
        }
    }
    None
}

/// The first number of a gap or a length that lies outside the ends.
fn first_outside_spell(value: &Value, low: u32, high: u32) -> Option<i64>
    ensures { result ≡ number_outside Shape.Spell low high (view value.now) }
{
    if let Some(number) = outside(value, low, high) {
        return Some(number);
    }
    if let Some(mean) = value_in(value, "mean") {
        if let Some(number) = outside(mean, low, high) {
            return Some(number);
        }
    }
    first_outside(value_in(value, "values")?, low, high)
}

/// Whether an array of `values` of a gap or a length is empty.
fn lacks_values(value: &Value) -> bool
    ensures { result ≡ option_map_or fields.is_empty_array (values_in (view value.now)) false }
{
    match value_in(value, "values") {
        Some(values) => is_empty_array(values),
        None => false,
    }
}

/// Whether an array of `values` of a gap or a length is too long.
fn has_more_values(value: &Value) -> bool
    ensures { result ≡ has_more Shape.Spell (view value.now) }
{
    match value_in(value, "values") {
        Some(values) => count(values) > MOST_VALUES,
        None => false,
    }
}

impl Shape {
    /// Whether the value has this shape.
    fn takes(self, value: &Value) -> bool
        ensures { result ≡ takes self (view value.now) }
    {
        match self {
            Shape::Group => is_all(value) || Kind::Numbers.takes(value),
            Shape::Sides => count(value) == 2 && are_groups(items_of(value)),
            Shape::Flag => value.is_bool(),
            Shape::Number => value.is_integer(),
            Shape::Spell => value.is_integer() || is_spell_table(value),
            Shape::Outages => value.is_array() && are_pairs(items_of(value)),
        }
    }

    /// Whether an array that needs a member has none.
    fn lacks_member(self, value: &Value) -> bool
        ensures { result ≡ lacks_member self (view value.now) }
    {
        match self {
            Shape::Group | Shape::Outages => is_empty_array(value),
            Shape::Sides => has_empty_array(items_of(value)),
            Shape::Spell => lacks_values(value),
            Shape::Flag | Shape::Number => false,
        }
    }

    /// Whether there are more values than a gap or a length may have.
    fn has_more(self, value: &Value) -> bool
        ensures { result ≡ has_more self (view value.now) }
    {
        match self {
            Shape::Spell => has_more_values(value),
            _ => false,
        }
    }

    /// The first number of a value that lies outside the ends.
    fn number_outside(self, value: &Value, low: u32, high: u32) -> Option<i64>
        ensures { result ≡ number_outside self low high (view value.now) }
    {
        match self {
            Shape::Group => first_outside(value, low, high),
            Shape::Sides | Shape::Outages => first_outside_each(items_of(value), low, high),
            Shape::Flag => None,
            Shape::Number => outside(value, low, high),
            Shape::Spell => first_outside_spell(value, low, high),
        }
    }
}

impl Field {
    /// What is wrong with a value of the key.
    #[tactic(auto, unfolding(crate::specs::Fields::fault_of_value))]
    fn fault_of_value(&self, value: &Value) -> Option<ValueFault>
        ensures { result ≡ fields.fault_of_value (field_of self.now) (view value.now) }
    {
        let shape = self.shape;
        if !shape.takes(value) {
            return Some(ValueFault::OtherShape(shape));
        }
        if shape.lacks_member(value) {
            return Some(ValueFault::NoMember);
        }
        if shape.has_more(value) {
            return Some(ValueFault::TooManyValues);
        }
        let number = shape.number_outside(value, self.low, self.high)?;
        Some(ValueFault::OutOfRange {
            value: number,
            low: self.low,
            high: self.high,
        })
    }

    /// What is wrong with what a table has at the key.
    #[tactic(auto, unfolding(crate::specs::Fields::fault_at))]
    pub(crate) fn fault_at(&self, table: &Table) -> Option<ValueFault>
        ensures { result ≡ fields.fault_at (field_of self.now) (table_view table.now) }
    {
        match value_at(table, self.key) {
            Some(value) => self.fault_of_value(value),
            None => {
                if self.needed {
                    Some(ValueFault::Missing)
                } else {
                    None
                }
            }
        }
    }
}
