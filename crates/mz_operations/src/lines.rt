// The table of operators and built-ins: a line for each of their forms.

ghost use Rattle.std.specs.Prelude.{◌≡◌, map};
ghost use Rattle.std.specs.Option.{option_map};
ghost use Rattle.mz_operations.specs.Lines as definition;
ghost use Rattle.mz_operations.specs.Lines.{plain_line};

use crate::row::{
    Arith, BoundingRow, Comparison, Connective, Fold, MadeRow, Quantifier, Row, ScalarRow, SetOp,
    Side, Sign,
};

/// A line of the table. Its number is its place there, from 0.
#[derive(Clone, Copy)]
pub struct TableLine {
    pub name: &'static str,
    /// The level of a binary operator, from 1, the loosest; 0 of what is none.
    pub level: u64,
    pub row: Row,
}

// A line has the name, the level and the row.
macro_rules! lines {
    ($($name:literal $level:literal $row:expr;)*) => {
        &[$(TableLine {
            name: $name,
            level: $level,
            row: $row,
        }),*]
    };
}

#[tactic(auto, unfolding(crate::specs::Lines::lines))]
fn lines() -> &'static [TableLine]
    ensures { map plain_line result.now ≡ definition.lines }
{
    lines! {
        // connectives
        "<->" 1 Row::Scalar(ScalarRow::Logic(Connective::Iff));
        "->" 2 Row::Scalar(ScalarRow::Logic(Connective::Implies));
        "<-" 2 Row::Scalar(ScalarRow::Logic(Connective::IsImplied));
        "\\/" 3 Row::Scalar(ScalarRow::Logic(Connective::Or));
        "xor" 3 Row::Scalar(ScalarRow::Logic(Connective::Xor));
        "/\\" 4 Row::Scalar(ScalarRow::Logic(Connective::And));
        "not" 0 Row::Scalar(ScalarRow::Not);
        // comparisons
        "=" 5 Row::Scalar(ScalarRow::Equal);
        "!=" 5 Row::Scalar(ScalarRow::Unequal);
        "<" 5 Row::Scalar(ScalarRow::Order(Comparison::Less));
        "<=" 5 Row::Scalar(ScalarRow::Order(Comparison::AtMost));
        ">" 5 Row::Scalar(ScalarRow::Order(Comparison::Greater));
        ">=" 5 Row::Scalar(ScalarRow::Order(Comparison::AtLeast));
        // sets
        "in" 6 Row::Scalar(ScalarRow::In);
        "subset" 6 Row::Made(MadeRow::Subset);
        "superset" 6 Row::Made(MadeRow::Superset);
        "union" 7 Row::Made(MadeRow::SetOf(SetOp::Union));
        "intersect" 10 Row::Made(MadeRow::SetOf(SetOp::Intersect));
        "diff" 7 Row::Made(MadeRow::SetOf(SetOp::Diff));
        "symdiff" 7 Row::Made(MadeRow::SetOf(SetOp::Symdiff));
        ".." 8 Row::Made(MadeRow::UpTo);
        "card" 0 Row::Scalar(ScalarRow::Card);
        "set2array" 0 Row::Made(MadeRow::SetToArray);
        "array_union" 0 Row::Made(MadeRow::ArrayUnion);
        "array_intersect" 0 Row::Made(MadeRow::ArrayIntersect);
        // integers
        "+" 9 Row::Scalar(ScalarRow::Arith(Arith::Add));
        "-" 9 Row::Scalar(ScalarRow::Arith(Arith::Sub));
        "*" 10 Row::Scalar(ScalarRow::Arith(Arith::Mul));
        "+" 0 Row::Scalar(ScalarRow::Sign(Sign::Plus));
        "-" 0 Row::Scalar(ScalarRow::Sign(Sign::Minus));
        "div" 10 Row::Scalar(ScalarRow::Arith(Arith::Div));
        "mod" 10 Row::Scalar(ScalarRow::Arith(Arith::Mod));
        "^" 11 Row::Scalar(ScalarRow::Power);
        "pow" 0 Row::Scalar(ScalarRow::Power);
        "abs" 0 Row::Scalar(ScalarRow::Sign(Sign::Abs));
        // extremes
        "min" 0 Row::Scalar(ScalarRow::Arith(Arith::Min));
        "min" 0 Row::Scalar(ScalarRow::SetExtreme(Side::Least));
        "min" 0 Row::Scalar(ScalarRow::Extreme(Side::Least));
        "max" 0 Row::Scalar(ScalarRow::Arith(Arith::Max));
        "max" 0 Row::Scalar(ScalarRow::SetExtreme(Side::Greatest));
        "max" 0 Row::Scalar(ScalarRow::Extreme(Side::Greatest));
        // folds
        "sum" 0 Row::Scalar(ScalarRow::Fold(Fold::Sum));
        "sum" 0 Row::Scalar(ScalarRow::Fold(Fold::SumOfOptions));
        "product" 0 Row::Scalar(ScalarRow::Fold(Fold::Product));
        "forall" 0 Row::Scalar(ScalarRow::Quantified(Quantifier::Forall));
        "forall" 0 Row::Scalar(ScalarRow::Quantified(Quantifier::Forall));
        "exists" 0 Row::Scalar(ScalarRow::Quantified(Quantifier::Exists));
        "exists" 0 Row::Scalar(ScalarRow::Quantified(Quantifier::Exists));
        "xorall" 0 Row::Scalar(ScalarRow::Quantified(Quantifier::Xorall));
        "clause" 0 Row::Scalar(ScalarRow::Clause);
        "count" 0 Row::Scalar(ScalarRow::Count);
        "count" 0 Row::Scalar(ScalarRow::Count);
        // ordinals
        "bool2int" 0 Row::Scalar(ScalarRow::Ordinal);
        "enum2int" 0 Row::Scalar(ScalarRow::Ordinal);
        // arrays
        "++" 12 Row::Made(MadeRow::Concat);
        "length" 0 Row::Scalar(ScalarRow::Length);
        "index_set" 0 Row::Made(MadeRow::IndexSet { place: 0, dimensions: 1 });
        "index_set_1of2" 0 Row::Made(MadeRow::IndexSet { place: 0, dimensions: 2 });
        "index_set_2of2" 0 Row::Made(MadeRow::IndexSet { place: 1, dimensions: 2 });
        "index_set_1of3" 0 Row::Made(MadeRow::IndexSet { place: 0, dimensions: 3 });
        "index_set_2of3" 0 Row::Made(MadeRow::IndexSet { place: 1, dimensions: 3 });
        "index_set_3of3" 0 Row::Made(MadeRow::IndexSet { place: 2, dimensions: 3 });
        "array1d" 0 Row::Made(MadeRow::Line);
        "array1d" 0 Row::Made(MadeRow::Shaped(1));
        "array2d" 0 Row::Made(MadeRow::Shaped(2));
        "array3d" 0 Row::Made(MadeRow::Shaped(3));
        "array4d" 0 Row::Made(MadeRow::Shaped(4));
        "array5d" 0 Row::Made(MadeRow::Shaped(5));
        "array6d" 0 Row::Made(MadeRow::Shaped(6));
        // bounds
        "lb" 0 Row::Bounding(BoundingRow::Lb);
        "lb" 0 Row::Bounding(BoundingRow::Lb);
        "ub" 0 Row::Bounding(BoundingRow::Ub);
        "ub" 0 Row::Bounding(BoundingRow::Ub);
        "dom" 0 Row::Bounding(BoundingRow::Dom);
        "lb_array" 0 Row::Bounding(BoundingRow::LbArray);
        "ub_array" 0 Row::Bounding(BoundingRow::UbArray);
        "is_fixed" 0 Row::Bounding(BoundingRow::IsFixed);
        "fix" 0 Row::Bounding(BoundingRow::Fix);
        // options
        "occurs" 0 Row::Scalar(ScalarRow::Occurs);
        "absent" 0 Row::Scalar(ScalarRow::Absent);
        "deopt" 0 Row::Made(MadeRow::Deopt);
        // cases
        "enum_next" 0 Row::Scalar(ScalarRow::Beside(Side::Greatest));
        "enum_prev" 0 Row::Scalar(ScalarRow::Beside(Side::Least));
        // assertions
        "assert" 0 Row::Scalar(ScalarRow::Assert);
        "assert" 0 Row::Made(MadeRow::AssertValue);
        "assert" 0 Row::Made(MadeRow::AssertArray);
        // texts
        "show" 0 Row::Show;
        "show" 0 Row::ShowArray;
        "show_int" 0 Row::Made(MadeRow::ShowInt);
        "join" 0 Row::Made(MadeRow::Join);
        "concat" 0 Row::Made(MadeRow::ConcatTexts);
        "++" 12 Row::Made(MadeRow::AppendTexts);
        "++" 12 Row::Made(MadeRow::Concat);
    }
}

#[tactic(auto, unfolding(crate::specs::Lines::line_at))]
fn line_at(number: u32) -> Option<TableLine>
    ensures { option_map plain_line result ≡ definition.line_at number }
{
    lines().get(number as usize).copied()
}

/// The row of the line with this number; `None` of another number, that of a global too. Takes no
/// memory.
pub fn row_of(number: u32) -> Option<Row>
    ensures { result ≡ definition.row_of number }
{
    let line = line_at(number)?;
    Some(line.row)
}

/// The level of the binary operator with this number, from 1, the loosest; 0 of what is none. Takes
/// no memory.
pub fn level_of(number: u32) -> u64
    ensures { result ≡ definition.level_of number }
{
    match line_at(number) {
        None => 0,
        Some(line) => line.level,
    }
}
