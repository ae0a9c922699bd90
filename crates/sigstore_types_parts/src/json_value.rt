// A JSON value, seen as its data.
ghost use Rattle.std.specs.Prelude.{◌≡◌, IfOk};
ghost use Rattle.std.specs.Cmp.{partial_equiv_from_equiv};
ghost use Rattle.serde_json.specs.View.{view as data_of};
ghost use Rattle.sigstore_types_parts.specs.JsonEqual.{same_data};
ghost use Rattle.sigstore_types_parts.specs.JsonEqualLaws.{same_data_equiv};

use crate::json_equal::same;
use foundation::{Duplicate, NoMemory};
use serde_json::Value;
use std::alloc::Global;
use std::marker::Model;

/// A JSON value as it was read; contracts see its data. Any two floats are equal.
#[derive(Drop)]
pub struct Json {
    value: Value,
}

impl Model for Json {
    ghost use Rattle.serde_json.specs.Data.{Data};
    ghost use Rattle.sigstore_types_parts.specs.DataCode.{data_code};

    ghost Value = { Data };

    ghost coded = { data_code };

    ghost use Rattle.serde_json.specs.View.{view as data_of};

    ghost view = { λ j. data_of j.value };
}

impl Json {
    /// This value; takes no memory.
    pub fn new(value: Value) -> Json
        ensures { result ≡ data_of value }
    {
        Json { value }
    }

    /// A copy of a value.
    pub fn copy_of(value: &Value) -> Result<Json, NoMemory>
        ensures { IfOk result (λ j. j ≡ data_of value.now) }
    {
        Ok(Json {
            value: value.clone()?,
        })
    }
}

impl Duplicate for Json {
    fn duplicate(&self, _alloc: Global) -> Result<Json, NoMemory> {
        Json::copy_of(&self.value)
    }
}

impl PartialEq for Json {
    ghost eq = { same_data };

    ghost laws = { partial_equiv_from_equiv same_data_equiv };

    fn eq(&self, other: &Json) -> bool {
        same(&self.value, &other.value)
    }
}

impl Eq for Json {
    ghost laws = { same_data_equiv };
}
