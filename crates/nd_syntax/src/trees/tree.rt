//! The syntax trees of a cell: `Stmt`, `Expr`, and the parts of both.
use crate::trees::calls::{Accumulation, DType, Fill, Reduction, Ufunc};
use nd_types::Kind;

/// An operator with one operand: `Negative` is `-`, `Invert` is `~`.
#[derive(Clone, Copy, Debug)]
pub enum UnaryOp {
    Negative,
    Invert,
}

/// An operator with two operands: `FloorDivide` is `//`, `Divide` is `/`, `Remainder` is `%`,
/// `Power` is `**`.
#[derive(Clone, Copy, Debug)]
pub enum BinaryOp {
    Add,
    Subtract,
    Multiply,
    FloorDivide,
    Divide,
    Remainder,
    Power,
    LeftShift,
    RightShift,
    BitwiseAnd,
    BitwiseXor,
    BitwiseOr,
    Less,
    LessEqual,
    Greater,
    GreaterEqual,
    Equal,
    NotEqual,
}

/// An expression. Parentheses, blanks and spellings are not kept.
#[derive(Debug, Drop)]
#[cycle(tree)]
pub enum Expr {
    Name(String),
    Integer(u64),
    Truth(bool),
    Unary(UnaryOp, Box<Expr>),
    /// An operand, and operators of one precedence with their right operands, from left to right.
    /// There is one at least: `a - b + c` is `a`, with `- b` and `+ c`.
    Chain(Box<Expr>, Vec<(BinaryOp, Expr)>),
    Call(Box<Call>),
    /// An operand, and its indexes and methods from left to right. There is one at least, and the
    /// operand has none of its own, unless in parentheses. `x[0].sum()` is `x` with two.
    Postfix(Box<Expr>, Vec<Suffix>),
}

/// A call of a function. A dtype that is left out is `None`.
#[derive(Debug, Drop)]
#[cycle(tree)]
pub enum Call {
    /// `np.arange`: the start, the stop and the step. A start or a step that is left out is `None`.
    Arange(Option<Expr>, Expr, Option<Expr>, Option<DType>),
    /// `np.zeros`, `np.ones`: the shape.
    Filled(Fill, Vec<Expr>, Option<DType>),
    /// `np.full`: the shape, and the value.
    Full(Vec<Expr>, Expr, Option<DType>),
    /// `np.array`
    Array(Element, Option<DType>),
    /// `np.int8` and the like.
    Convert(Kind, Expr),
    /// `np.broadcast_to`: the value, and the shape.
    BroadcastTo(Expr, Vec<Expr>),
    /// `np.minimum`
    Minimum(Expr, Expr),
    /// `np.maximum`
    Maximum(Expr, Expr),
    /// `np.abs`, `np.absolute`
    Absolute(Expr),
    /// `abs`
    PythonAbs(Expr),
    /// `np.add.reduce` and the like.
    Fold(Ufunc, Fold),
    /// `np.load`: the name of the input.
    Load(String),
    /// `buffer`: the name of the input.
    Buffer(String),
}

/// What a universal function does to an array.
#[derive(Debug, Drop)]
#[cycle(tree)]
pub enum Fold {
    /// The array, the axis, and whether the reduced axes are kept.
    Reduce(Expr, Axis, bool),
    /// The array, and the axis, `None` where it is left out.
    Accumulate(Expr, Option<Expr>),
}

/// What follows an operand: an index, or a method.
#[derive(Debug, Drop)]
#[cycle(tree)]
pub enum Suffix {
    Index(Index),
    Method(Method),
}

/// A method of an array, or its attribute `T`.
#[derive(Debug, Drop)]
#[cycle(tree)]
pub enum Method {
    /// The axes, none for `.T`.
    Transpose(Vec<Expr>),
    /// The lengths.
    Reshape(Vec<Expr>),
    Copy,
    AsType(DType),
    View(DType),
    /// The axis, and whether the reduced axes are kept.
    Reduce(Reduction, Axis, bool),
    /// The axis, `None` where it is left out.
    Accumulate(Accumulation, Option<Expr>),
}

/// The axis of a reduction.
#[derive(Debug, Drop)]
#[cycle(tree)]
pub enum Axis {
    /// No axis is written.
    Default,
    /// `None`
    All,
    At(Expr),
}

/// The contents of an index's brackets.
#[derive(Debug, Drop)]
#[cycle(tree)]
pub enum Index {
    /// The name of a field.
    Field(String),
    /// The items between commas, none in `()`.
    Items(Vec<IndexItem>),
}

/// An item of an index.
#[derive(Debug, Drop)]
#[cycle(tree)]
pub enum IndexItem {
    At(Expr),
    /// The start, the stop and the step. A bound that is left out is `None`.
    Slice(Option<Expr>, Option<Expr>, Option<Expr>),
    Ellipsis,
    /// `None` or `np.newaxis`
    NewAxis,
    List(Vec<Element>),
}

/// An element of a list.
#[derive(Debug, Drop)]
#[cycle(tree)]
pub enum Element {
    Single(Expr),
    Nested(Vec<Element>),
}

/// A statement of a cell.
#[derive(Debug, Drop)]
pub enum Stmt {
    /// `import numpy as np`
    Import,
    /// The name, and its value.
    Bind(String, Expr),
    /// The name, the operator of `op=`, and the operand.
    Augment(String, BinaryOp, Expr),
    /// The target, its index, and the value.
    Assign(Expr, Index, Expr),
    /// The target, its index, the operator of `op=`, and the operand.
    AugmentItem(Expr, Index, BinaryOp, Expr),
    Delete(String),
    Print(Vec<Expr>),
    /// `np.save`: the name, and the value.
    Save(String, Expr),
}

/// A statement, and the line, from 1, on which it begins.
#[derive(Debug, Drop)]
pub struct Line {
    pub line: usize,
    pub stmt: Stmt,
}

/// Why a text is no cell.
#[derive(Clone, Copy, Debug)]
pub enum ParseKind {
    /// No token begins here.
    BadToken,
    Unexpected,
    /// A bracket, a sign or `**` opens the 65th level.
    TooDeep,
    /// The first token of the 1,001st statement.
    TooManyStatements,
    /// A name that may not be called here.
    UnknownCall,
    /// Python that cells do not have, as `for`.
    LeftOut,
}

/// Why a text is no cell, with the line and the column in bytes, both from 1.
#[derive(Clone, Copy)]
pub struct ParseFault {
    pub kind: ParseKind,
    pub line: usize,
    pub column: usize,
}
