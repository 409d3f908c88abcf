//! Lists of texts, read and written.
ghost use Rattle.std.specs.Prelude.{◌≡◌, ◌++◌, ◌∷◌, IfOk, OnOk, map, option_map};
ghost use Rattle.serde_json.specs.View.{view};
ghost use Rattle.serde_json.specs.Data.{string};
ghost use Rattle.json_objects.specs.Fields.{list_of, name};
ghost use Rattle.json_objects.specs.Objects.{listed};
ghost use Rattle.json_objects.specs.Tokens.{field_after};

use crate::fields::{name, owned};
use crate::writer::ObjectWriter;
use serde_json::Value;
use std::alloc::{AllocError, Global};
use units::{List, Text};

// A name of its own.
fn owned_name(alloc: Global, value: &Value) -> Result<Option<Text>, AllocError>
    ensures { IfOk result (λ o. o ≡ name (view value.now)) }
{
    owned(alloc, name(value))
}

/// A list of names; `None` where it is no list, or an item is no name.
pub fn names(alloc: Global, value: &Value) -> Result<Option<List<Text>>, AllocError>
    ensures { IfOk result (λ o. o ≡ list_of name (view value.now)) }
{
    let Some(items) = value.as_array() else {
        return Ok(None);
    };
    let mut found = Vec::new(alloc);
    for item in items {
        match owned_name(alloc, item)? {
            Some(name) => found.push(name)?,
            None => return Ok(None),
        }
    }
    Ok(Some(List::from_vec(found)))
}

/// Writes a list of texts under a name, where there is any.
pub fn put_texts(out: &mut ObjectWriter, name: &str, texts: &[Text]) -> Result<(), AllocError>
    ensures ok { OnOk result (out.new.tokens ≡ field_after out.old.tokens name.now (listed (map string texts.now))) }
    ensures before { out.new.before ≡ out.old.before }
{
    if texts.is_empty() {
        return Ok(());
    }
    out.name(name)?;
    out.begin_list()?;
    for text in texts {
        out.item(text.as_str())?;
    }
    out.end_list()
}
