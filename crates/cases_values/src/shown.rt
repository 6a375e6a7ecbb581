// How values are shown.

ghost use Rattle.std.specs.Prelude.{◌≡◌, ◌∷◌, [], IfOk, codes};
ghost use Rattle.mz_value.specs.Contents.{case_names, text_bytes};

use cases::Page;
use mz_base::Memory;
use mz_value::{Cases, RangeSet, TextValue, Value, join, show, show_int};
use std::alloc::{AllocError, Global};

fn text(alloc: Global, s: &str) -> Result<TextValue, AllocError>
    ensures { IfOk result (λ t. text_bytes t ≡ s.now) }
{
    Ok(TextValue {
        text: String::from_str(alloc, s)?,
    })
}

/// One enum, `{Red, Green}`.
fn colours(alloc: Global) -> Result<Cases, AllocError>
    ensures { IfOk result (λ c. case_names c ≡ (codes "Red" ∷ codes "Green" ∷ []) ∷ []) }
{
    let mut colours = Vec::new(alloc);
    colours.push(text(alloc, "Red")?)?;
    colours.push(text(alloc, "Green")?)?;
    let mut names = Vec::new(alloc);
    names.push(colours)?;
    Ok(Cases { names })
}

pub fn texts(alloc: Global, page: &mut Page) -> Result<(), Memory> {
    page.line("# numbers in columns, and texts with commas between");
    for (width, x) in [(4, 7), (-3, 7), (1, -12), (0, 0)] {
        page.show((width, x));
        page.case("", show_int(alloc, width, x)?.text);
    }
    let mut parts = Vec::new(alloc);
    parts.push(Value::Text(text(alloc, "p")?))?;
    parts.push(Value::Text(text(alloc, "q")?))?;
    let joined = join(alloc, &text(alloc, ", ")?, &parts)?;
    page.case("p and q", joined.text);
    Ok(())
}

pub fn sets(alloc: Global, page: &mut Page) -> Result<(), Memory> {
    page.line("# sets, where an enum has the cases Red and Green");
    integers(alloc, page, "1 and 5", RangeSet::of(alloc, &[1, 5])?)?;
    integers(alloc, page, "2 and 3", RangeSet::range(alloc, 2, 3)?)?;
    integers(alloc, page, "none", RangeSet::range(alloc, 1, 0)?)?;
    let cases = colours(alloc)?;
    let both = Value::cases(0, RangeSet::range(alloc, 1, 2)?);
    page.case("cases 1 and 2", show(alloc, &both, &cases)?.text);
    Ok(())
}

fn integers(alloc: Global, page: &mut Page, call: &str, set: RangeSet) -> Result<(), Memory> {
    let cases = Cases {
        names: Vec::new(alloc),
    };
    let value = Value::integers(set);
    page.case(call, show(alloc, &value, &cases)?.text);
    Ok(())
}

pub fn empty_array(alloc: Global, page: &mut Page) -> Result<(), Memory> {
    page.line("# arrays, where an enum has the cases Red and Green");
    let cases = colours(alloc)?;
    let empty = Value::array(vec![in alloc; (1, 0)]?, Vec::new(alloc));
    page.case("no items", show(alloc, &empty, &cases)?.text);
    Ok(())
}

pub fn plane(alloc: Global, page: &mut Page) -> Result<(), Memory> {
    let cases = colours(alloc)?;
    let index = vec![in alloc; (1, 2), (0, 1)]?;
    let items = vec![in alloc;
        Value::Int(-1),
        Value::Absent,
        Value::Bool(true),
        Value::Enum(0, 2),
    ]?;
    let plane = Value::array(index, items);
    page.case("two rows of two", show(alloc, &plane, &cases)?.text);
    Ok(())
}
