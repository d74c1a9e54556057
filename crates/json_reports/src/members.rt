//! Members of objects. An object that grows is borrowed, so no member waits while another is made.
ghost use Rattle.std.specs.Prelude.{◌≡◌, IfOk, OnOk};
ghost use Rattle.serde_json.specs.Data.{Data, no_members, object, put, string};
ghost use Rattle.serde_json.specs.View.{view, members_view};
ghost use Rattle.json_reports.specs.Members.{count, or_null, scalar_data, with_scalars};

use serde_json::{Map, Value};
use std::alloc::{AllocError, Global};

/// A value without items and members.
#[derive(Clone, Copy)]
pub(crate) enum Scalar<'a> {
    Null,
    Flag(bool),
    Count(u64),
    /// Null if there is none.
    CountIfAny(Option<u64>),
    Text(&'a str),
    /// Null if there is none.
    TextIfAny(Option<&'a str>),
}

/// Returns the number in 64 bits, if there is one.
pub fn wide(number: Option<u32>) -> Option<u64>
    ensures { result ≡ number }
{
    match number {
        Some(number) => Some(u64::from(number)),
        None => None,
    }
}

/// Returns the number, or null if there is none.
pub fn count_value(number: Option<u64>) -> Value
    ensures { view result ≡ or_null count number }
{
    match number {
        Some(number) => Value::from(number),
        None => Value::Null,
    }
}

fn text_value(alloc: Global, text: Option<&str>) -> Result<Value, AllocError>
    ensures { IfOk result (λ v. view v ≡ or_null (λ t. string t.now) text.entry) }
{
    match text {
        Some(text) => Value::try_from_str(alloc, text),
        None => Ok(Value::Null),
    }
}

fn scalar_value(alloc: Global, scalar: Scalar<'_>) -> Result<Value, AllocError>
    ensures { IfOk result (λ v. view v ≡ scalar_data scalar.entry) }
{
    match scalar {
        Scalar::Null => Ok(Value::Null),
        Scalar::Flag(flag) => Ok(Value::from(flag)),
        Scalar::Count(number) => Ok(Value::from(number)),
        Scalar::CountIfAny(number) => Ok(count_value(number)),
        Scalar::Text(text) => Value::try_from_str(alloc, text),
        Scalar::TextIfAny(text) => text_value(alloc, text),
    }
}

/// Puts a value that was to be made under its name. If it wasn't made, nothing is put.
pub(crate) fn put_made(
    members: &mut Map<String, Value>,
    alloc: Global,
    name: &str,
    made: Result<Value, AllocError>,
) -> Result<(), AllocError>
    ensures { (d : Data) → IfOk made (λ v. view v ≡ d) → OnOk result (members_view members.new.entries
        ≡ put name.now d (members_view members.old.entries)) }
{
    match made {
        Ok(value) => serde_json::put(members, alloc, name, value),
        Err(error) => Err(error),
    }
}

/// Puts values, each under its name.
pub(crate) fn put_scalars(
    members: &mut Map<String, Value>,
    alloc: Global,
    scalars: &[(&str, Scalar<'_>)],
) -> Result<(), AllocError>
    ensures { OnOk result (members_view members.new.entries
        ≡ with_scalars (members_view members.old.entries) scalars.now) }
{
    for scalar in scalars {
        serde_json::put(members, alloc, scalar.0, scalar_value(alloc, scalar.1)?)?;
    }
    Ok(())
}

/// Returns the object of values that have names.
pub(crate) fn scalars_object(
    alloc: Global,
    scalars: &[(&str, Scalar<'_>)],
) -> Result<Value, AllocError>
    ensures { IfOk result (λ v. view v ≡ object (with_scalars no_members scalars.now)) }
{
    let mut members = Map::new(alloc);
    put_scalars(&mut members, alloc, scalars)?;
    Ok(Value::Object(members))
}

/// Returns the object of one more value, which is put in first, and of values that have names.
pub(crate) fn object_with(
    alloc: Global,
    name: &str,
    value: Value,
    scalars: &[(&str, Scalar<'_>)],
) -> Result<Value, AllocError>
    ensures { IfOk result (λ v. view v
        ≡ object (with_scalars (put name.now (view value) no_members) scalars.now)) }
{
    let mut members = Map::new(alloc);
    serde_json::put(&mut members, alloc, name, value)?;
    put_scalars(&mut members, alloc, scalars)?;
    Ok(Value::Object(members))
}
