// Which shapes' values can be printed.

ghost use Rattle.std.specs.Prelude.{◌≡◌, ◌&&◌, map};
ghost use Rattle.std.specs.List.{AllByRecursion, list_all};
ghost use Rattle.std.specs.Option.{option_map};
ghost use Rattle.mz_value.specs.Contents.{case_names, text_bytes};
ghost use Rattle.mz_meaning.specs.Operations.{has_case};
ghost use Rattle.fz_items.specs.Forms.{form, forms};
ghost use Rattle.mz_print.specs.Printable.{AreOfCases, ArePrintable, HasCases, HasCasesAlone, HasFewRanges, IfTrue, IsPrintable};

use mz_value::{Cases, RangeSet, Shape, ShapeBase, TextValue};

/// Whether a case with this number is among these, the first being 1.
#[tactic(auto, using(crate::proofs::ItemLists::as_many))]
fn has_case(labels: &[TextValue], k: i64) -> bool
    ensures { result ≡ has_case (map text_bytes labels.now) k }
{
    1 <= k && k <= labels.len() as i64
}

fn has_ends(labels: &[TextValue], r: &(i64, i64)) -> bool
    ensures { result ≡ (has_case (map text_bytes labels.now) r.now.0 && has_case (map text_bytes labels.now) r.now.1) }
{
    has_case(labels, r.0) && has_case(labels, r.1)
}

fn has_ranges(labels: &[TextValue], ranges: &[(i64, i64)]) -> bool
    ensures { result ≡ list_all (λ r. has_case (map text_bytes labels.now) r.0 && has_case (map text_bytes labels.now) r.1) ranges.now }
{
    ranges.iter().all(|r| has_ends(labels, r))
}

/// Whether a domain has numbers of cases alone.
fn has_cases(labels: &[TextValue], domain: &RangeSet) -> bool
    ensures { IfTrue result (HasCases (map text_bytes labels.now) domain.now) }
{
    has_ranges(labels, domain.ranges())
}

fn all_have_cases(labels: &[TextValue], domains: &[RangeSet]) -> bool
    ensures { IfTrue result (AllByRecursion (HasCases (map text_bytes labels.now)) domains.now) }
{
    for domain in domains {
        if !has_cases(labels, domain) {
            return false;
        }
    }
    true
}

fn are_of_cases(cases: &Cases, e: u64, domains: &[RangeSet]) -> bool
    ensures { IfTrue result (AreOfCases (case_names cases.now) e domains.now) }
{
    match cases.names.get(e as usize) {
        Some(labels) => all_have_cases(labels, domains),
        None => false,
    }
}

fn has_cases_alone(cases: &Cases, base: ShapeBase, domains: &[RangeSet]) -> bool
    ensures { IfTrue result (HasCasesAlone (case_names cases.now) base domains.now) }
{
    match base {
        ShapeBase::Enum(e) => are_of_cases(cases, e, domains),
        ShapeBase::SetEnum(e) => are_of_cases(cases, e, domains),
        ShapeBase::Bool => true,
        ShapeBase::Int => true,
        ShapeBase::SetInt => true,
    }
}

fn has_few_ranges(index: &Option<Vec<(i64, i64)>>) -> bool
    ensures { IfTrue result (HasFewRanges (option_map (λ v. v.items) index.now)) }
{
    match index {
        None => true,
        Some(index) => index.len() <= 6,
    }
}

fn is_printable(cases: &Cases, shape: &Shape) -> bool
    ensures { IfTrue result (IsPrintable (case_names cases.now) (form shape.now)) }
{
    has_cases_alone(cases, shape.base, &shape.domains) && has_few_ranges(&shape.index)
}

/// Whether the values of these shapes can be printed: each enum is one of `cases`, its domains have no number but those of
/// its cases, and an array has at most six dimensions.
pub fn are_printable(cases: &Cases, shapes: &[Shape]) -> bool
    ensures { IfTrue result (ArePrintable (case_names cases.now) (forms shapes.now)) }
{
    for shape in shapes {
        if !is_printable(cases, shape) {
            return false;
        }
    }
    true
}
