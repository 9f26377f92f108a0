//! `push_cell_fault`: the texts of refusals, as answers show them.

ghost use Rattle.std.specs.Prelude.{◌≡◌, ◌++◌, codes, decimal};
ghost use Rattle.std.specs.Fmt.{signed_decimal};
ghost use Rattle.nd_model.specs.Text.FaultText as texts;
ghost use Rattle.nd_notebook.specs.Syntax.{kind_of};
ghost use Rattle.nd_shape.specs.Faults.{fault_of as shape_fault_of};
ghost use Rattle.nd_notebook.specs.Faults.{view_fault_of, index_fault_of, reduce_fault_of, ufunc_fault_of, stmt_error_of, fault_of};
ghost use Rattle.nd_notebook.specs.Results.{cell_fault_of};
ghost use Rattle.nd_npy.specs.Pep3118.Gives.{fault_of as format_fault_of};
ghost use Rattle.nd_npy.specs.Header.Gives.{fault_of as npy_fault_of};
ghost use Rattle.nd_script.specs.Lines.Answers.{Pushes};

use nd_notebook::{
    CellFault, FormatFault, IndexFault, NpyFault, ParseKind, ReduceFault, ShapeFault, StmtError,
    StmtFault, UfuncFault, ViewFault,
};
use nd_script::lines::AnswerWrite;
use nd_script::words::{push_integer, push_number, push_text};

/// Appends the fault of a cell, such as `Stmt.NoName x`.
pub fn push_cell_fault<O: AnswerWrite>(out: &mut O, fault: &CellFault)
    ensures { Pushes (O.state out.old) (texts.refusal_text (cell_fault_of fault.now))
        (O.state out.new) }
{
    match fault {
        CellFault::Parse(kind, column) => push_parse_fault(out, *kind, *column),
        CellFault::Statement(fault) => push_statement_fault(out, fault),
    }
}

fn push_parse_fault<O: AnswerWrite>(out: &mut O, kind: ParseKind, column: usize)
    ensures { Pushes (O.state out.old)
        (codes "Parse." ++ texts.parse_text (kind_of kind) ++ codes " " ++ decimal column)
        (O.state out.new) }
{
    push_text(out, "Parse.");
    push_text(out, parse_name(kind));
    push_text(out, " ");
    push_number(out, column as u64);
}

fn parse_name(kind: ParseKind) -> &'static str
    ensures { result.now ≡ texts.parse_text (kind_of kind) }
{
    match kind {
        ParseKind::BadToken => "BadToken",
        ParseKind::Unexpected => "Unexpected",
        ParseKind::TooDeep => "TooDeep",
        ParseKind::TooManyStatements => "TooManyStatements",
        ParseKind::UnknownCall => "UnknownCall",
        ParseKind::LeftOut => "LeftOut",
    }
}

fn push_statement_fault<O: AnswerWrite>(out: &mut O, fault: &StmtFault)
    ensures { Pushes (O.state out.old) (texts.fault_text (fault_of fault.now)) (O.state out.new) }
{
    match fault {
        StmtFault::Format(fault) => {
            push_text(out, "Format.");
            push_format_fault(out, *fault);
        }
        StmtFault::Npy(fault) => {
            push_text(out, "Npy.");
            push_npy_fault(out, *fault);
        }
        StmtFault::View(fault) => {
            push_text(out, "View.");
            push_text(out, view_name(*fault));
        }
        StmtFault::Index(fault) => {
            push_text(out, "Index.");
            push_index_fault(out, fault);
        }
        StmtFault::Shape(fault) => {
            let (group, name) = shape_words(*fault);
            push_text(out, group);
            push_text(out, name);
        }
        StmtFault::Ufunc(fault) => {
            push_text(out, "Ufunc.");
            push_ufunc_fault(out, *fault);
        }
        StmtFault::Reduce(fault) => {
            push_text(out, "Reduce.");
            push_text(out, reduce_name(*fault));
        }
        StmtFault::Stmt(fault) => {
            push_text(out, "Stmt.");
            push_statement_error(out, fault);
        }
    }
}

// A name of a refusal, and a position behind it.
fn push_place<O: AnswerWrite>(out: &mut O, name: &str, at: usize)
    ensures { Pushes (O.state out.old) (name.now ++ decimal at) (O.state out.new) }
{
    push_text(out, name);
    push_number(out, at as u64);
}

fn push_format_fault<O: AnswerWrite>(out: &mut O, fault: FormatFault)
    ensures { Pushes (O.state out.old) (texts.format_text (format_fault_of fault))
        (O.state out.new) }
{
    match fault {
        FormatFault::UnknownCode(at) => push_place(out, "UnknownCode ", at),
        FormatFault::Unclosed(at) => push_place(out, "Unclosed ", at),
        FormatFault::NoName(at) => push_place(out, "NoName ", at),
        FormatFault::DoubleName(at) => push_place(out, "DoubleName ", at),
        FormatFault::CountNotHere(at) => push_place(out, "CountNotHere ", at),
        FormatFault::LargerThanItem => push_text(out, "LargerThanItem"),
        FormatFault::TooManyFields => push_text(out, "TooManyFields"),
        FormatFault::BadItemSize => push_text(out, "BadItemSize"),
    }
}

fn push_npy_fault<O: AnswerWrite>(out: &mut O, fault: NpyFault)
    ensures { Pushes (O.state out.old) (texts.npy_text (npy_fault_of fault)) (O.state out.new) }
{
    match fault {
        NpyFault::BadMagic => push_text(out, "BadMagic"),
        NpyFault::BadVersion => push_text(out, "BadVersion"),
        NpyFault::Truncated => push_text(out, "Truncated"),
        NpyFault::NotText(at) => push_place(out, "NotText ", at),
        NpyFault::BadHeader(at) => push_place(out, "BadHeader ", at),
        NpyFault::BadKeys => push_text(out, "BadKeys"),
        NpyFault::BadDescr => push_text(out, "BadDescr"),
        NpyFault::TooLarge => push_text(out, "TooLarge"),
    }
}

fn view_name(fault: ViewFault) -> &'static str
    ensures { result.now ≡ texts.view_text (view_fault_of fault) }
{
    match fault {
        ViewFault::OutOfBlock => "OutOfBlock",
        ViewFault::TooManyAxes => "TooManyAxes",
        ViewFault::TooManyElements => "TooManyElements",
        ViewFault::AxesDiffer => "AxesDiffer",
    }
}

/// The group and the name of a refusal of another shape.
fn shape_words(fault: ShapeFault) -> (&'static str, &'static str)
    ensures { result.0.now ++ result.1.now ≡ texts.fault_text (shape_fault_of fault) }
{
    match fault {
        ShapeFault::BadAxes => ("Shape.", "BadAxes"),
        ShapeFault::ShapeMismatch => ("Shape.", "ShapeMismatch"),
        ShapeFault::ItemSizes => ("View.", "ItemSizes"),
        ShapeFault::TwoUnknown => ("Shape.", "TwoUnknown"),
        ShapeFault::SizeMismatch => ("Shape.", "SizeMismatch"),
        ShapeFault::View(fault) => ("View.", view_name(fault)),
    }
}

fn push_index_fault<O: AnswerWrite>(out: &mut O, fault: &IndexFault)
    ensures { Pushes (O.state out.old) (texts.index_text (index_fault_of fault.now))
        (O.state out.new) }
{
    match fault {
        IndexFault::OutOfBounds { axis, index, size } => {
            push_out_of_bounds(out, *axis, *index, *size);
        }
        IndexFault::TooManyIndices => push_text(out, "TooManyIndices"),
        IndexFault::NotAnIndex => push_text(out, "NotAnIndex"),
        IndexFault::ZeroStep => push_text(out, "ZeroStep"),
        IndexFault::TwoEllipses => push_text(out, "TwoEllipses"),
        IndexFault::NoField(name) => {
            push_text(out, "NoField ");
            push_text(out, name.as_str());
        }
        IndexFault::MaskShape { axis } => push_place(out, "MaskShape ", *axis),
        IndexFault::IndexShapes => push_text(out, "IndexShapes"),
    }
}

fn push_out_of_bounds<O: AnswerWrite>(out: &mut O, axis: usize, index: i128, size: u64)
    ensures { Pushes (O.state out.old)
        (codes "OutOfBounds " ++ decimal axis ++ codes " " ++ signed_decimal index
        ++ codes " " ++ decimal size) (O.state out.new) }
{
    push_axis_and_index(out, axis, index);
    push_text(out, " ");
    push_number(out, size);
}

fn push_axis_and_index<O: AnswerWrite>(out: &mut O, axis: usize, index: i128)
    ensures { Pushes (O.state out.old)
        (codes "OutOfBounds " ++ decimal axis ++ codes " " ++ signed_decimal index)
        (O.state out.new) }
{
    push_text(out, "OutOfBounds ");
    push_number(out, axis as u64);
    push_text(out, " ");
    push_integer(out, index);
}

fn push_ufunc_fault<O: AnswerWrite>(out: &mut O, fault: UfuncFault)
    ensures { Pushes (O.state out.old) (texts.ufunc_text (ufunc_fault_of fault)) (O.state out.new) }
{
    match fault {
        UfuncFault::FloatResult => push_text(out, "FloatResult"),
        UfuncFault::IntOutOfRange(number) => {
            push_text(out, "IntOutOfRange ");
            push_integer(out, number);
        }
        UfuncFault::ShapeMismatch => push_text(out, "ShapeMismatch"),
        UfuncFault::ReadOnly => push_text(out, "ReadOnly"),
        UfuncFault::NotNumbers => push_text(out, "NotNumbers"),
        UfuncFault::BoolOp => push_text(out, "BoolOp"),
        UfuncFault::KindCast => push_text(out, "KindCast"),
        UfuncFault::NegativePower => push_text(out, "NegativePower"),
    }
}

fn reduce_name(fault: ReduceFault) -> &'static str
    ensures { result.now ≡ texts.reduce_text (reduce_fault_of fault) }
{
    match fault {
        ReduceFault::EmptyReduce => "EmptyReduce",
        ReduceFault::NoAxis => "NoAxis",
        ReduceFault::NotNumbers => "NotNumbers",
    }
}

fn push_statement_error<O: AnswerWrite>(out: &mut O, error: &StmtError)
    ensures { Pushes (O.state out.old) (texts.stmt_text (stmt_error_of error.now))
        (O.state out.new) }
{
    match error {
        StmtError::NoName(name) => {
            push_text(out, "NoName ");
            push_text(out, name.as_str());
        }
        StmtError::NoInput(name) => {
            push_text(out, "NoInput ");
            push_text(out, name.as_str());
        }
        StmtError::IntTooBig => push_text(out, "IntTooBig"),
        StmtError::ZeroDivide => push_text(out, "ZeroDivide"),
        StmtError::NegativeShift => push_text(out, "NegativeShift"),
        StmtError::NeedsType => push_text(out, "NeedsType"),
        StmtError::NotAnArray => push_text(out, "NotAnArray"),
        StmtError::TextTooLong => push_text(out, "TextTooLong"),
        StmtError::BadArgument => push_text(out, "BadArgument"),
        StmtError::BadType => push_text(out, "BadType"),
        StmtError::RaggedList => push_text(out, "RaggedList"),
    }
}
