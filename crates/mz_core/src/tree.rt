// The typed tree: expressions whose names are slots, whose calls have their overload, and whose
// coercions are written out.

use crate::types::{Coercion, TypeInst};
use mz_base::{Name, Span};

/// A typed expression: the place of its first token, its type, and its outermost form.
#[cycle(typed)]
pub struct Core {
    pub span: Span,
    pub ty: TypeInst,
    pub form: CoreForm,
}

impl Drop for Core {
    #[cycle(typed)]
    fn drop(self) {
        let Core {
            span: _,
            ty: _ty,
            form: _form,
        } = self;
    }
}

/// What a typed expression is, by its outermost form.
///
/// Parentheses make no node, and the operators of one level in a row are one `Chain`.
#[derive(Drop)]
#[cycle(typed)]
pub enum CoreForm {
    Bool(bool),
    Int(i64),
    /// A case of the enum with this number. The first case has number 1.
    Enum(u64, i64),
    /// A text literal, whose text the program has under this name.
    Text(Name),
    /// `<>`.
    Absent,
    /// The set of all cases of the enum with this number.
    EnumSet(u64),
    /// A declared name, a parameter, a local or a generator's variable, by its number.
    Slot(u64),
    /// `..` as an index.
    Whole,
    /// The first operand, and the operators of one level with their other operands. It stands for
    /// binary nodes of which each is the first operand of the next, for `++` the last.
    Chain(Box<Core>, Vec<CoreStep>),
    /// A row of the table of built-ins, and its arguments.
    Builtin(u32, Vec<Core>),
    /// A function by its place among the program's, and its arguments.
    Call(u64, Vec<Core>),
    /// An array, and an index for each of its dimensions.
    Access(Box<Core>, Vec<Core>),
    Array(Vec<Core>),
    Rows(Vec<Vec<Core>>),
    Set(Vec<Core>),
    /// Whether it is in braces, its head, and its generators.
    Comp(bool, Box<Core>, Vec<CoreGen>),
    /// Conditions, each with its branch, and what follows `else`.
    If(Vec<(Core, Core)>, Option<Box<Core>>),
    Let(Vec<CoreItem>, Box<Core>),
    /// One step of coercion, to the type of this node.
    Coerce(Coercion, Box<Core>),
}

/// A generator: the slots of its names, the set or array that they run over, and a `where`.
#[cycle(typed)]
pub struct CoreGen {
    pub slots: Vec<u64>,
    pub set: Core,
    pub cond: Option<Core>,
}

impl Drop for CoreGen {
    #[cycle(typed)]
    fn drop(self) {
        let CoreGen {
            slots: _slots,
            set: _set,
            cond: _cond,
        } = self;
    }
}

/// A declared type with its place: an index set for each dimension, `None` where the index is `int`,
/// and the set of its values, `None` where the base is `bool` or `int`.
#[derive(Drop)]
#[cycle(typed)]
pub struct CoreType {
    pub span: Span,
    pub ty: TypeInst,
    pub index: Vec<Option<Core>>,
    pub set: Option<Core>,
}

/// A declaration or a parameter: its slot, its name with the name's place, its type, and its value.
///
/// The value is the written one, or the one from data.
#[cycle(typed)]
pub struct CoreDecl {
    pub slot: u64,
    pub name: Name,
    pub span: Span,
    pub ty: CoreType,
    pub value: Option<Core>,
}

impl Drop for CoreDecl {
    #[cycle(typed)]
    fn drop(self) {
        let CoreDecl {
            slot: _,
            name: _,
            span: _,
            ty: _ty,
            value: _value,
        } = self;
    }
}

/// An item of a `let`.
#[cycle(typed)]
pub enum CoreItem {
    Decl(CoreDecl),
    Constraint(Core),
}

impl Drop for CoreItem {
    #[cycle(typed)]
    fn drop(self) {
        match self {
            CoreItem::Decl(_decl) => {}
            CoreItem::Constraint(_constraint) => {}
        }
    }
}

/// An operator of a chain: the place of its second operand's first token, a parenthesis too, its row
/// and its type, the coercions of its two operands, in order, each with the type that it leads to, and
/// its second operand.
#[cycle(typed)]
pub struct CoreStep {
    pub start: Span,
    pub row: u32,
    pub ty: TypeInst,
    pub left: Vec<(Coercion, TypeInst)>,
    pub right: Vec<(Coercion, TypeInst)>,
    pub operand: Core,
}

impl Drop for CoreStep {
    #[cycle(typed)]
    fn drop(self) {
        let CoreStep {
            start: _,
            row: _,
            ty: _ty,
            left: _left,
            right: _right,
            operand: _operand,
        } = self;
    }
}
