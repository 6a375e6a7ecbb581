// The elements of an output item.

ghost use Rattle.std.specs.Prelude.{◌≡◌, ◌++◌, OnOk, map};
ghost use Rattle.std.specs.List.{flat_map};
ghost use Rattle.mz_value.specs.Contents.{content};
ghost use Rattle.mz_value.specs.Shown.{bytes_of};
ghost use Rattle.mz_print.specs.Output.{joined_elements};

use mz_base::Memory;
use mz_value::Value;

/// Appends the bytes of a text, nothing for another value.
fn push_text(v: &Value, out: &mut Vec<u8>) -> Result<(), Memory>
    ensures { OnOk result (out.new.items ≡ out.old.items ++ bytes_of (content v.now)) }
{
    match v {
        Value::Text(t) => out.extend_from_slice(t.text.as_bytes())?,
        _ => {}
    }
    Ok(())
}

fn push_texts(items: &[Value], out: &mut Vec<u8>) -> Result<(), Memory>
    ensures { OnOk result (out.new.items ≡ out.old.items ++ flat_map bytes_of (map content items.now)) }
{
    for x in items {
        push_text(x, out)?;
    }
    Ok(())
}

/// Appends the texts of an array of texts, one after the other; nothing for another value.
#[tactic(auto, using(crate::proofs::ItemLists::items_in_contents))]
pub fn push_elements(v: &Value, out: &mut Vec<u8>) -> Result<(), Memory>
    ensures { OnOk result (out.new.items ≡ out.old.items ++ joined_elements (content v.now)) }
{
    match v {
        Value::Array(a) => push_texts(&a.items, out),
        _ => Ok(()),
    }
}
