//! The printed form of trees: each operator stands in square brackets with all its operands, and what stands behind an
//! atom stands with it. A tree is written piece by piece, so that none is too deep.

use cy_tree::{
    Comparison, Expr, Index, Pair, Part, ShiftOp, SumOp, TermOp, TypeName, TypeNode, UnaryOp,
};
use sqlite_items::Boxed;
use std::alloc::{AllocError, Global};

#[derive(Clone, Copy)]
enum Piece<'a> {
    Tree(&'a Expr),
    Type(&'a TypeNode),
    Text(&'a str),
    Int(u128),
}

type Pieces<'a> = Vec<Piece<'a>>;

fn put<'a>(pieces: &mut Pieces<'a>, piece: Piece<'a>) -> Result<(), AllocError> {
    pieces.push(piece)?;
    Ok(())
}

fn text<'a>(pieces: &mut Pieces<'a>, text: &'a str) -> Result<(), AllocError> {
    put(pieces, Piece::Text(text))
}

fn tree<'a>(pieces: &mut Pieces<'a>, tree: &'a Expr) -> Result<(), AllocError> {
    put(pieces, Piece::Tree(tree))
}

fn operand<'a>(pieces: &mut Pieces<'a>, sign: &'a str, right: &'a Expr) -> Result<(), AllocError> {
    text(pieces, sign)?;
    tree(pieces, right)
}

fn row<'a>(pieces: &mut Pieces<'a>, sign: &'a str, all: &'a [Expr]) -> Result<(), AllocError> {
    for (place, one) in all.iter().enumerate() {
        if place > 0 {
            text(pieces, sign)?;
        }
        tree(pieces, one)?;
    }
    Ok(())
}

fn pairs<'a>(pieces: &mut Pieces<'a>, all: &'a [Pair]) -> Result<(), AllocError> {
    for (key, value) in all {
        tree(pieces, key)?;
        operand(pieces, ": ", value)?;
        text(pieces, ";")?;
    }
    Ok(())
}

fn bound<'a>(pieces: &mut Pieces<'a>, bound: &'a Option<Boxed<Expr>>) -> Result<(), AllocError> {
    match bound {
        Some(bound) => tree(pieces, bound.get()),
        None => Ok(()),
    }
}

fn index<'a>(pieces: &mut Pieces<'a>, index: &'a Index) -> Result<(), AllocError> {
    match index {
        Index::One(one) => tree(pieces, one)?,
        Index::Slice(_, low, high) => {
            bound(pieces, low)?;
            text(pieces, ":")?;
            bound(pieces, high)?;
        }
    }
    text(pieces, ";")
}

fn indexes<'a>(pieces: &mut Pieces<'a>, all: &'a [Index]) -> Result<(), AllocError> {
    for one in all {
        index(pieces, one)?;
    }
    Ok(())
}

fn part<'a>(pieces: &mut Pieces<'a>, part: &'a Part) -> Result<(), AllocError> {
    match part {
        Part::Attribute(_, name) => {
            text(pieces, " .")?;
            text(pieces, name.text.as_str())
        }
        Part::Call(_, all) => {
            text(pieces, " (")?;
            row(pieces, ", ", all.as_slice())?;
            text(pieces, ")")
        }
        Part::Item(_, all) => {
            text(pieces, " [")?;
            indexes(pieces, all.as_slice())?;
            text(pieces, "]")
        }
    }
}

fn parts<'a>(pieces: &mut Pieces<'a>, all: &'a [Part]) -> Result<(), AllocError> {
    for one in all {
        part(pieces, one)?;
    }
    Ok(())
}

fn comparison(op: Comparison) -> &'static str {
    match op {
        Comparison::Less => " < ",
        Comparison::LessEqual => " <= ",
        Comparison::Equal => " == ",
        Comparison::NotEqual => " != ",
        Comparison::Greater => " > ",
        Comparison::GreaterEqual => " >= ",
        Comparison::Is => " is ",
        Comparison::IsNot => " is not ",
        Comparison::In => " in ",
        Comparison::NotIn => " not in ",
    }
}

fn unary(op: UnaryOp) -> &'static str {
    match op {
        UnaryOp::Negate => "- ",
        UnaryOp::Plus => "+ ",
        UnaryOp::Invert => "~ ",
    }
}

fn shift(op: ShiftOp) -> &'static str {
    match op {
        ShiftOp::Left => " << ",
        ShiftOp::Right => " >> ",
    }
}

fn sum(op: SumOp) -> &'static str {
    match op {
        SumOp::Add => " + ",
        SumOp::Subtract => " - ",
    }
}

fn term(op: TermOp) -> &'static str {
    match op {
        TermOp::Multiply => " * ",
        TermOp::Divide => " / ",
        TermOp::FloorDivide => " // ",
        TermOp::Remainder => " % ",
    }
}

// The levels whose operands stand behind their operators.
fn level<'a>(pieces: &mut Pieces<'a>, level: &'a Expr) -> Result<(), AllocError> {
    match level {
        Expr::BitOr(_, first, more) => {
            tree(pieces, first.get())?;
            for (_, right) in more.as_slice() {
                operand(pieces, " | ", right)?;
            }
        }
        Expr::BitXor(_, first, more) => {
            tree(pieces, first.get())?;
            for (_, right) in more.as_slice() {
                operand(pieces, " ^ ", right)?;
            }
        }
        Expr::BitAnd(_, first, more) => {
            tree(pieces, first.get())?;
            for (_, right) in more.as_slice() {
                operand(pieces, " & ", right)?;
            }
        }
        Expr::Shift(_, first, more) => {
            tree(pieces, first.get())?;
            for (op, _, right) in more.as_slice() {
                operand(pieces, shift(*op), right)?;
            }
        }
        Expr::Sum(_, first, more) => {
            tree(pieces, first.get())?;
            for (op, _, right) in more.as_slice() {
                operand(pieces, sum(*op), right)?;
            }
        }
        Expr::Term(_, first, more) => {
            tree(pieces, first.get())?;
            for (op, _, right) in more.as_slice() {
                operand(pieces, term(*op), right)?;
            }
        }
        _ => operation(pieces, level)?,
    }
    Ok(())
}

fn operation<'a>(pieces: &mut Pieces<'a>, operation: &'a Expr) -> Result<(), AllocError> {
    match operation {
        Expr::Conditional(_, value, test, other) => {
            tree(pieces, value.get())?;
            operand(pieces, " if ", test.get())?;
            operand(pieces, " else ", other.get())
        }
        Expr::Or(_, all) => row(pieces, " or ", all.as_slice()),
        Expr::And(_, all) => row(pieces, " and ", all.as_slice()),
        Expr::Not(_, right) => operand(pieces, "not ", right.get()),
        Expr::Compare(_, left, op, _, right) => {
            tree(pieces, left.get())?;
            operand(pieces, comparison(*op), right.get())
        }
        Expr::Unary(_, op, right) => operand(pieces, unary(*op), right.get()),
        Expr::Cast(_, to, checked, right) => {
            text(pieces, "<")?;
            put(pieces, Piece::Type(to))?;
            operand(pieces, if *checked { "?> " } else { "> " }, right.get())
        }
        Expr::Postfix(_, first, more) => {
            tree(pieces, first.get())?;
            parts(pieces, more.as_slice())
        }
        _ => Ok(()),
    }
}

fn pieces_of<'a>(alloc: Global, node: &'a Expr) -> Result<Pieces<'a>, AllocError> {
    let mut pieces = Vec::new(alloc);
    match node {
        Expr::Name(name) => text(&mut pieces, name.text.as_str())?,
        Expr::Int(_, value) => put(&mut pieces, Piece::Int(*value))?,
        Expr::Str(_, string) => {
            text(&mut pieces, "'")?;
            text(&mut pieces, string.as_str())?;
            text(&mut pieces, "'")?;
        }
        Expr::NoneNode(_) => text(&mut pieces, "None")?,
        Expr::TrueNode(_) => text(&mut pieces, "True")?,
        Expr::FalseNode(_) => text(&mut pieces, "False")?,
        Expr::Tuple(_, all) => {
            text(&mut pieces, "tuple(")?;
            row(&mut pieces, ", ", all.as_slice())?;
            text(&mut pieces, ")")?;
        }
        Expr::ListNode(_, all) => {
            text(&mut pieces, "list(")?;
            row(&mut pieces, ", ", all.as_slice())?;
            text(&mut pieces, ")")?;
        }
        Expr::Dict(_, all) => {
            text(&mut pieces, "dict(")?;
            pairs(&mut pieces, all.as_slice())?;
            text(&mut pieces, ")")?;
        }
        _ => {
            text(&mut pieces, "[")?;
            level(&mut pieces, node)?;
            text(&mut pieces, "]")?;
        }
    }
    Ok(pieces)
}

fn write_type_name(name: &TypeName, out: &mut String) -> Result<(), AllocError> {
    match name {
        TypeName::Number(words) => write!(out, "{words:?}"),
        TypeName::Named(name) => out.push_str(name.text.as_str()),
        TypeName::Member(module, name) => {
            let (module, name) = (module.text.as_str(), name.text.as_str());
            write!(out, "{module}.{name}")
        }
    }
}

fn write_type(node: &TypeNode, out: &mut String) -> Result<(), AllocError> {
    if node.constant {
        out.push_str("const ")?;
    }
    write_type_name(&node.name, out)?;
    for dim in node.dims.as_slice() {
        match dim.step {
            Some(step) => write!(out, " ::{step}")?,
            None => out.push_str(" :")?,
        }
    }
    Ok(())
}

/// Writes a tree. It gives up after as many pieces as no line of cases has.
pub fn write_tree(alloc: Global, whole: &Expr, out: &mut String) -> Result<(), AllocError> {
    let mut left = Vec::new(alloc);
    tree(&mut left, whole)?;
    for _turn in 0..1_000_000usize {
        let Some(piece) = left.pop() else {
            return Ok(());
        };
        match piece {
            Piece::Text(text) => out.push_str(text)?,
            Piece::Int(value) => write!(out, "{value}")?,
            Piece::Type(node) => write_type(node, out)?,
            Piece::Tree(node) => {
                let pieces = pieces_of(alloc, node)?;
                for piece in pieces.as_slice().iter().rev() {
                    put(&mut left, *piece)?;
                }
            }
        }
    }
    Ok(())
}
