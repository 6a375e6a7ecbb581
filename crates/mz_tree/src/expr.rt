// Expressions, with the declarations and types that they hold.
//
// Each struct is let go by a `drop` of its own, so that a value that is held while more is read costs one call at each
// exit, and not a branch for each form.

ghost use Rattle.std.specs.Prelude.{◌≡◌, map};
ghost use Rattle.std.specs.Option.{option_map};
ghost use Rattle.mz_tree.specs.Tree as pure;
ghost use Rattle.mz_tree.specs.Tree.{array_type, marked};
ghost use Rattle.mz_tree.specs.Views.{tree, generator, written, based};

use mz_base::{Name, Span};

/// A prefix operator.
#[derive(Clone, Copy, Debug, PartialEq, Eq)]
pub enum UnOp {
    Not,
    Plus,
    Minus,
}

/// A binary operator. `Eq` stands for `=` and `==`.
#[derive(Clone, Copy, Debug, PartialEq, Eq)]
pub enum BinOp {
    Iff,
    Imp,
    Rimp,
    Or,
    Xor,
    And,
    Lt,
    Gt,
    Le,
    Ge,
    Eq,
    Ne,
    Member,
    Subset,
    Superset,
    Union,
    Diff,
    Symdiff,
    Range,
    Add,
    Sub,
    Mul,
    Div,
    Mod,
    Intersect,
    Pow,
    Concat,
    Default,
}

/// A binary operator, with the place of the first token of the operand after it, a parenthesis too.
#[derive(Clone, Copy, Debug)]
pub struct PlacedOp {
    pub op: BinOp,
    pub start: Span,
}

/// What an expression is, by its outermost form.
///
/// Parentheses make no node, and the operators of one level in a row are one `Chain`.
#[derive(Debug, Drop)]
#[cycle(tree)]
pub enum Form {
    Int(i64),
    Bool(bool),
    Absent,
    Text(Name),
    Ident(Name),
    Interp(Vec<TextPart>),
    Unary(UnOp, Box<Expr>),
    Chain(Box<Expr>, Vec<(PlacedOp, Expr)>),
    Call(Name, Vec<Expr>),
    GenCall(Name, Vec<Gen>, Box<Expr>),
    Access(Box<Expr>, Vec<Expr>),
    Array(Vec<Expr>),
    Rows(Vec<Vec<Expr>>),
    Set(Vec<Expr>),
    ArrayComp(Box<Expr>, Vec<Gen>),
    SetComp(Box<Expr>, Vec<Gen>),
    If(Vec<(Expr, Expr)>, Option<Box<Expr>>),
    Let(Vec<LetItem>, Box<Expr>),
    Whole,
}

/// An expression, with the place of its first token.
#[derive(Debug)]
#[cycle(tree)]
pub struct Expr {
    pub span: Span,
    pub form: Form,
}

impl Drop for Expr {
    #[cycle(tree)]
    fn drop(self) {
        let Expr {
            span: _span,
            form: _form,
        } = self;
    }
}

/// A piece of a text with interpolation.
#[derive(Debug, Drop)]
#[cycle(tree)]
pub enum TextPart {
    Plain(Name),
    Shown(Expr),
}

/// A generator: its names with their places, the set or array that they run over, and a `where`.
#[derive(Debug)]
#[cycle(tree)]
pub struct Gen {
    pub names: Vec<(Name, Span)>,
    pub set: Expr,
    pub cond: Option<Expr>,
}

impl Drop for Gen {
    #[cycle(tree)]
    fn drop(self) {
        let Gen {
            names: _names,
            set: _set,
            cond: _cond,
        } = self;
    }
}

impl Gen {
    /// Its names with their places, the set or array that they run over, and its `where`.
    #[tactic(auto, unfolding(crate::specs::Views::tree, crate::specs::Views::shape, crate::specs::Views::let_of, crate::specs::Views::part, crate::specs::Views::based, crate::specs::Views::declaration, crate::specs::Views::generator, crate::specs::Views::written))]
    pub fn into_parts(self) -> (Vec<(Name, Span)>, Expr, Option<Expr>)
        ensures { generator self ≡ pure.generator result.0.items (tree result.1) (pure.maybe (option_map tree result.2)) }
    {
        let Gen { names, set, cond } = self;
        (names, set, cond)
    }
}

/// An item of a `let`.
#[derive(Debug, Drop)]
#[cycle(tree)]
pub enum LetItem {
    Decl(Decl),
    Constraint(Expr),
}

/// A declaration, with the place of its name.
#[derive(Debug)]
#[cycle(tree)]
pub struct Decl {
    pub ty: TypeText,
    pub name: Name,
    pub span: Span,
    pub value: Option<Expr>,
}

impl Drop for Decl {
    #[cycle(tree)]
    fn drop(self) {
        let Decl {
            ty: _ty,
            name: _name,
            span: _span,
            value: _value,
        } = self;
    }
}

/// A written type: `dims` are the index types of an array, in their order.
#[derive(Debug)]
#[cycle(tree)]
pub struct TypeText {
    pub span: Span,
    pub dims: Option<Vec<TypeBase>>,
    pub var: bool,
    pub opt: bool,
    pub set: bool,
    pub base: TypeBase,
}

impl Drop for TypeText {
    #[cycle(tree)]
    fn drop(self) {
        let TypeText {
            span: _span,
            dims: _dims,
            var: _var,
            opt: _opt,
            set: _set,
            base: _base,
        } = self;
    }
}

impl TypeText {
    /// An array type with this place and these index types, whose elements have this type.
    #[tactic(auto, unfolding(crate::specs::Views::tree, crate::specs::Views::shape, crate::specs::Views::let_of, crate::specs::Views::part, crate::specs::Views::based, crate::specs::Views::declaration, crate::specs::Views::generator, crate::specs::Views::written))]
    pub fn into_array(self, span: Span, dims: Vec<TypeBase>) -> TypeText
        ensures { written result ≡ array_type span (map based dims.items) (written self) }
    {
        let TypeText {
            span: _span,
            dims: _dims,
            var,
            opt,
            set,
            base,
        } = self;
        TypeText {
            span,
            dims: Some(dims),
            var,
            opt,
            set,
            base,
        }
    }

    /// This type after `var` or `par`, with that word's place.
    #[tactic(auto, unfolding(crate::specs::Views::tree, crate::specs::Views::shape, crate::specs::Views::let_of, crate::specs::Views::part, crate::specs::Views::based, crate::specs::Views::declaration, crate::specs::Views::generator, crate::specs::Views::written))]
    pub fn marked(self, span: Span, var: bool) -> TypeText
        ensures { written result ≡ marked span var (written self) }
    {
        let TypeText {
            span: _span,
            dims,
            var: _var,
            opt,
            set,
            base,
        } = self;
        TypeText {
            span,
            dims,
            var,
            opt,
            set,
            base,
        }
    }
}

/// What a type is of: `Of` is a set, given by an expression.
#[derive(Debug, Drop)]
#[cycle(tree)]
pub enum TypeBase {
    Bool,
    Int,
    Of(Box<Expr>),
}
