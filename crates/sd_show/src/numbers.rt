//! JSON objects of numbers.
ghost use Rattle.std.specs.Prelude.{◌≡◌, map, IfOk};
ghost use Rattle.serde_json.specs.View.{members_view};
ghost use Rattle.sd_show.specs.Numbers.{named, number_members};

use serde_json::{Map, Value, put};
use std::alloc::{AllocError, Global};

/// An object with these numbers under these names, of which a later one holds where two are the same.
///
/// # Errors
///
/// Out of memory where a growth was refused.
pub fn numbers_object(
    alloc: Global,
    numbers: &[(&str, u64)],
) -> Result<Map<String, Value>, AllocError>
    ensures members { IfOk result
        (λ object. members_view object.entries ≡ number_members (map named numbers.now)) }
{
    let mut object = Map::new(alloc);
    for &(name, number) in numbers {
        put(&mut object, alloc, name, Value::from(number))?;
    }
    Ok(object)
}
