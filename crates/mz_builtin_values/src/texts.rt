// Rows that give texts.

ghost use Rattle.std.specs.Prelude.{◌≡◌, ◌++◌, IfOk, is_some, map};
ghost use Rattle.std.specs.Option.{option_map};
ghost use Rattle.mz_value.specs.Contents.{content, text_bytes};
ghost use Rattle.mz_operations.specs.Views as views;
ghost use Rattle.mz_operations.specs.Arguments.{arguments};
ghost use Rattle.mz_operations.specs.Values.{made_value};
ghost use Rattle.mz_builtin_values.specs.StepsTexts.{all_texts};

use crate::building::text_value;
use mz_builtin_arguments::{as_text, int_at, items_at, text_at};
use mz_operations::MadeRow;
use mz_value::{TextValue, Value, join, show_int};
use std::alloc::{AllocError, Global};

fn is_text(x: &Value) -> bool
    ensures { result ≡ is_some (views.as_text (content x.now)) }
{
    as_text(x).is_some()
}

/// Whether all elements are texts.
#[tactic(auto, using(crate::proofs::AllTexts::text_end))]
fn are_texts(items: &[Value]) -> bool
    ensures { result ≡ all_texts (map content items.now) }
{
    for x in items {
        if !is_text(x) {
            return false;
        }
    }
    true
}

fn appended(alloc: Global, t: &TextValue, u: &TextValue) -> Result<TextValue, AllocError>
    ensures { IfOk result (λ w. text_bytes w ≡ text_bytes t.now ++ text_bytes u.now) }
{
    let mut text = String::from_str(alloc, t.text.as_str())?;
    text.push_str(u.text.as_str())?;
    Ok(TextValue { text })
}

/// `++` of texts.
#[tactic(auto, unfolding(mz_operations::specs::Values::made_value))]
pub(crate) fn append_texts(
    alloc: Global,
    args: &[Option<Value>],
) -> Result<Option<Value>, AllocError>
    ensures { IfOk result (λ v. option_map content v ≡ made_value MadeRow.AppendTexts (arguments args.now)) }
{
    let Some(t) = text_at(args, 0) else {
        return Ok(None);
    };
    let Some(u) = text_at(args, 1) else {
        return Ok(None);
    };
    let both = appended(alloc, t, u)?;
    Ok(Some(text_value(both)))
}

/// `show_int`.
#[tactic(auto, unfolding(mz_operations::specs::Values::made_value))]
pub(crate) fn shown_int(alloc: Global, args: &[Option<Value>]) -> Result<Option<Value>, AllocError>
    ensures { IfOk result (λ v. option_map content v ≡ made_value MadeRow.ShowInt (arguments args.now)) }
{
    let Some(width) = int_at(args, 0) else {
        return Ok(None);
    };
    let Some(n) = int_at(args, 1) else {
        return Ok(None);
    };
    let shown = show_int(alloc, width, n)?;
    Ok(Some(text_value(shown)))
}

/// `join`.
#[tactic(auto, unfolding(mz_operations::specs::Values::made_value), using(crate::proofs::AllTexts::texts_there, crate::proofs::AllTexts::texts_missing))]
pub(crate) fn joined(alloc: Global, args: &[Option<Value>]) -> Result<Option<Value>, AllocError>
    ensures { IfOk result (λ v. option_map content v ≡ made_value MadeRow.Join (arguments args.now)) }
{
    let Some(between) = text_at(args, 0) else {
        return Ok(None);
    };
    let Some(xs) = items_at(args, 1) else {
        return Ok(None);
    };
    if !are_texts(xs) {
        return Ok(None);
    }
    let all = join(alloc, between, xs)?;
    Ok(Some(text_value(all)))
}

/// `concat`.
#[tactic(auto, unfolding(mz_operations::specs::Values::made_value), using(crate::proofs::AllTexts::texts_there, crate::proofs::AllTexts::texts_missing))]
pub(crate) fn concatenated(
    alloc: Global,
    args: &[Option<Value>],
) -> Result<Option<Value>, AllocError>
    ensures { IfOk result (λ v. option_map content v ≡ made_value MadeRow.ConcatTexts (arguments args.now)) }
{
    let Some(xs) = items_at(args, 0) else {
        return Ok(None);
    };
    if !are_texts(xs) {
        return Ok(None);
    }
    let nothing = TextValue {
        text: String::new(alloc),
    };
    let all = join(alloc, &nothing, xs)?;
    Ok(Some(text_value(all)))
}
