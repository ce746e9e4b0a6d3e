//! The printed form of trees: their nodes in the order of their first tokens, outer before inner, each with what it says
//! itself and the number of the nodes right inside it.
use anyhow::Result;
use cy_tree::{
    Access, AugOp, CKind, Cimport, Class, ClassBase, ClauseNode, Comparison, Content, Dim, Expr,
    FileTree, Handler, Header, Heading, Ident, ImportItem, Index, LockWord, Member, Node,
    NumberWords, Param, Part, PxdClass, PxdItem, PxdMember, ShiftOp, Simple, Stmt, Suite, SumOp,
    TermOp, Top, TypeName, TypeNode, UnaryOp,
};

fn number_words(words: NumberWords) -> &'static str {
    match words {
        NumberWords::SignedChar => "signed char",
        NumberWords::UnsignedChar => "unsigned char",
        NumberWords::Short => "short",
        NumberWords::ShortInt => "short int",
        NumberWords::UnsignedShort => "unsigned short",
        NumberWords::UnsignedShortInt => "unsigned short int",
        NumberWords::Int => "int",
        NumberWords::Unsigned => "unsigned",
        NumberWords::UnsignedInt => "unsigned int",
        NumberWords::Long => "long",
        NumberWords::LongInt => "long int",
        NumberWords::LongLong => "long long",
        NumberWords::LongLongInt => "long long int",
        NumberWords::UnsignedLong => "unsigned long",
        NumberWords::UnsignedLongInt => "unsigned long int",
        NumberWords::UnsignedLongLong => "unsigned long long",
        NumberWords::UnsignedLongLongInt => "unsigned long long int",
        NumberWords::PySsizeT => "Py_ssize_t",
        NumberWords::SizeT => "size_t",
        NumberWords::Bint => "bint",
        NumberWords::Void => "void",
    }
}

fn put_ident(ident: &Ident, out: &mut String) -> Result<()> {
    out.push_str(ident.text.as_str())?;
    Ok(())
}

fn put_idents(idents: &[Ident], out: &mut String) -> Result<()> {
    for (place, ident) in idents.iter().enumerate() {
        if place > 0 {
            out.push_str(", ")?;
        }
        put_ident(ident, out)?;
    }
    Ok(())
}

fn put_dims(dims: &[Dim], out: &mut String) -> Result<()> {
    for (place, dim) in dims.iter().enumerate() {
        out.push_str(if place > 0 { ", :" } else { ":" })?;
        if let Some(step) = dim.step {
            write!(out, ":{step}")?;
        }
    }
    Ok(())
}

fn put_member_name(outer: &Ident, ident: &Ident, out: &mut String) -> Result<()> {
    put_ident(outer, out)?;
    out.push('.')?;
    put_ident(ident, out)
}

fn put_name(name: &TypeName, out: &mut String) -> Result<()> {
    match name {
        TypeName::Number(words) => put_word(number_words(*words), out),
        TypeName::Named(ident) => put_ident(ident, out),
        TypeName::Member(outer, ident) => put_member_name(outer, ident, out),
    }
}

fn put_type(kind: &TypeNode, out: &mut String) -> Result<()> {
    if kind.constant {
        out.push_str("const ")?;
    }
    put_name(&kind.name, out)?;
    if !kind.dims.is_empty() {
        out.push('[')?;
        put_dims(kind.dims.as_slice(), out)?;
        out.push(']')?;
    }
    Ok(())
}

// A type with a blank behind it.
fn put_before(kind: &Option<TypeNode>, out: &mut String) -> Result<()> {
    if let Some(kind) = kind {
        put_type(kind, out)?;
        out.push(' ')?;
    }
    Ok(())
}

// A type with a blank before it.
fn put_behind(kind: &Option<TypeNode>, out: &mut String) -> Result<()> {
    if let Some(kind) = kind {
        out.push(' ')?;
        put_type(kind, out)?;
    }
    Ok(())
}

fn put_item(item: &ImportItem, out: &mut String) -> Result<()> {
    put_ident(&item.name, out)?;
    if let Some(alias) = &item.alias {
        out.push_str(" as ")?;
        put_ident(alias, out)?;
    }
    Ok(())
}

fn put_items(items: &[ImportItem], out: &mut String) -> Result<()> {
    for (place, item) in items.iter().enumerate() {
        if place > 0 {
            out.push_str(", ")?;
        }
        put_item(item, out)?;
    }
    Ok(())
}

fn put_cimport(cimport: &Cimport, out: &mut String) -> Result<()> {
    match cimport {
        Cimport::Module(_, item) => {
            out.push_str("cimport ")?;
            put_item(item, out)
        }
        Cimport::From(_, outer, items) => {
            out.push_str("from ")?;
            put_ident(outer, out)?;
            out.push_str(" cimport ")?;
            put_items(items.as_slice(), out)
        }
    }
}

fn put_base_name(base: &ClassBase, out: &mut String) -> Result<()> {
    match base {
        ClassBase::Named(ident) => put_ident(ident, out),
        ClassBase::Member(outer, ident) => put_member_name(outer, ident, out),
    }
}

fn put_base(base: &Option<ClassBase>, out: &mut String) -> Result<()> {
    if let Some(base) = base {
        out.push('(')?;
        put_base_name(base, out)?;
        out.push(')')?;
    }
    Ok(())
}

fn put_class(name: &Ident, base: &Option<ClassBase>, out: &mut String) -> Result<()> {
    out.push_str("class ")?;
    put_ident(name, out)?;
    put_base(base, out)
}

fn put_open(access: Access, kind: &TypeNode, names: &[Ident], out: &mut String) -> Result<()> {
    out.push_str(match access {
        Access::Public => "public ",
        Access::Readonly => "readonly ",
    })?;
    put_type(kind, out)?;
    out.push(' ')?;
    put_idents(names, out)
}

fn put_fields(kind: &Option<TypeNode>, names: &[Ident], out: &mut String) -> Result<()> {
    out.push_str("fields ")?;
    put_before(kind, out)?;
    put_idents(names, out)
}

fn put_member(member: &Member, out: &mut String) -> Result<()> {
    match member {
        Member::Pass(_) => out.push_str("pass")?,
        Member::Docstring(_, text) => write!(out, "'{}'", text.as_str())?,
        Member::OpenFields(_, access, kind, names) => {
            put_open(*access, kind, names.as_slice(), out)?
        }
        Member::Fields(_, kind, names) => put_fields(kind, names.as_slice(), out)?,
        Member::Def(_) | Member::Method(_) => out.push_str("member")?,
    }
    Ok(())
}

fn put_pxd_member(member: &PxdMember, out: &mut String) -> Result<()> {
    match member {
        PxdMember::Pass(_) => out.push_str("pass")?,
        PxdMember::OpenFields(_, access, kind, names) => {
            put_open(*access, kind, names.as_slice(), out)?
        }
        PxdMember::Fields(_, kind, names) => put_fields(kind, names.as_slice(), out)?,
        PxdMember::Method(_) => out.push_str("member")?,
    }
    Ok(())
}

fn put_heading(heading: &Heading, out: &mut String) -> Result<()> {
    out.push_str(match heading.kind {
        CKind::Cdef => "cdef ",
        CKind::Cpdef => "cpdef ",
    })?;
    put_before(&heading.result, out)?;
    put_ident(&heading.name, out)
}

fn put_clause(clause: &ClauseNode, out: &mut String) -> Result<()> {
    match clause {
        ClauseNode::Star(_) => out.push_str(" except *")?,
        ClauseNode::Noexcept(_) => out.push_str(" noexcept")?,
        ClauseNode::Value {
            maybe,
            negative,
            value,
            ..
        } => {
            out.push_str(if *maybe { " except? " } else { " except " })?;
            out.push_str(if *negative { "-" } else { "" })?;
            write!(out, "{value}")?;
        }
    }
    Ok(())
}

fn put_header(header: &Header, out: &mut String) -> Result<()> {
    out.push_str("header")?;
    if let Some(clause) = &header.clause {
        put_clause(clause, out)?;
    }
    if header.nogil.is_some() {
        out.push_str(" nogil")?;
    }
    Ok(())
}

fn put_param(param: &Param, out: &mut String) -> Result<()> {
    out.push_str("param ")?;
    put_before(&param.kind, out)?;
    put_ident(&param.name, out)?;
    if param.not_none.is_some() {
        out.push_str(" not None")?;
    }
    Ok(())
}

fn put_else(there: bool, out: &mut String) -> Result<()> {
    if there {
        out.push_str(" else")?;
    }
    Ok(())
}

fn put_stmt(stmt: &Stmt, out: &mut String) -> Result<()> {
    match stmt {
        Stmt::Simples(_) => out.push_str("simples")?,
        Stmt::IfNode(_, _, other) => {
            out.push_str("if")?;
            put_else(other.is_some(), out)?;
        }
        Stmt::WhileNode(_, _, _, other) => {
            out.push_str("while")?;
            put_else(other.is_some(), out)?;
        }
        Stmt::ForNode(_, _, _, _, other) => {
            out.push_str("for")?;
            put_else(other.is_some(), out)?;
        }
        Stmt::Try(_, _, handlers, other, last) => {
            let count = handlers.len();
            write!(out, "try {count}")?;
            put_else(other.is_some(), out)?;
            out.push_str(if last.is_some() { " finally" } else { "" })?;
        }
        Stmt::With(_, LockWord::Nogil, _) => out.push_str("with nogil")?,
        Stmt::With(_, LockWord::Gil, _) => out.push_str("with gil")?,
    }
    Ok(())
}

fn put_handler(handler: &Handler, out: &mut String) -> Result<()> {
    out.push_str(if handler.kind.is_some() {
        "except type"
    } else {
        "except"
    })?;
    if let Some(name) = &handler.name {
        out.push_str(" as ")?;
        put_ident(name, out)?;
    }
    Ok(())
}

fn augmented(op: AugOp) -> &'static str {
    match op {
        AugOp::Add => "augmented +=",
        AugOp::Subtract => "augmented -=",
        AugOp::Multiply => "augmented *=",
        AugOp::Divide => "augmented /=",
        AugOp::FloorDivide => "augmented //=",
        AugOp::Remainder => "augmented %=",
        AugOp::LeftShift => "augmented <<=",
        AugOp::RightShift => "augmented >>=",
        AugOp::BitAnd => "augmented &=",
        AugOp::BitOr => "augmented |=",
        AugOp::BitXor => "augmented ^=",
    }
}

fn put_import(outer: &Ident, items: &[ImportItem], out: &mut String) -> Result<()> {
    out.push_str("from ")?;
    put_ident(outer, out)?;
    out.push_str(" import ")?;
    put_items(items, out)
}

fn put_simple(simple: &Simple, out: &mut String) -> Result<()> {
    match simple {
        Simple::Pass(_) => out.push_str("pass")?,
        Simple::Break(_) => out.push_str("break")?,
        Simple::Continue(_) => out.push_str("continue")?,
        Simple::ReturnNode(_, _) => out.push_str("return")?,
        Simple::Raise(_, _) => out.push_str("raise")?,
        Simple::Del(_, _) => out.push_str("del")?,
        Simple::Global(_, names) => {
            out.push_str("global ")?;
            put_idents(names.as_slice(), out)?;
        }
        Simple::Import(_, items) => {
            out.push_str("import ")?;
            put_items(items.as_slice(), out)?;
        }
        Simple::FromImport(_, outer, items) => put_import(outer, items.as_slice(), out)?,
        Simple::Cdef(_, kind, _) => {
            out.push_str("cdef")?;
            put_behind(kind, out)?;
        }
        Simple::Expression(_) => out.push_str("expression")?,
        Simple::Augmented(_, op, _, _) => out.push_str(augmented(*op))?,
        Simple::Assign(_, _) => out.push_str("assign")?,
    }
    Ok(())
}

fn comparison(op: Comparison) -> &'static str {
    match op {
        Comparison::Less => "cmp <",
        Comparison::LessEqual => "cmp <=",
        Comparison::Equal => "cmp ==",
        Comparison::NotEqual => "cmp !=",
        Comparison::Greater => "cmp >",
        Comparison::GreaterEqual => "cmp >=",
        Comparison::Is => "cmp is",
        Comparison::IsNot => "cmp is not",
        Comparison::In => "cmp in",
        Comparison::NotIn => "cmp not in",
    }
}

fn shift(op: ShiftOp) -> &'static str {
    match op {
        ShiftOp::Left => " <<",
        ShiftOp::Right => " >>",
    }
}

fn sum(op: SumOp) -> &'static str {
    match op {
        SumOp::Add => " +",
        SumOp::Subtract => " -",
    }
}

fn term(op: TermOp) -> &'static str {
    match op {
        TermOp::Multiply => " *",
        TermOp::Divide => " /",
        TermOp::FloorDivide => " //",
        TermOp::Remainder => " %",
    }
}

fn unary(op: UnaryOp) -> &'static str {
    match op {
        UnaryOp::Negate => "unary -",
        UnaryOp::Plus => "unary +",
        UnaryOp::Invert => "unary ~",
    }
}

// The levels with operators that differ.
fn put_level(level: &Expr, out: &mut String) -> Result<()> {
    match level {
        Expr::Shift(_, _, more) => {
            out.push_str("shift")?;
            for (op, _, _) in more.as_slice() {
                out.push_str(shift(*op))?;
            }
        }
        Expr::Sum(_, _, more) => {
            out.push_str("sum")?;
            for (op, _, _) in more.as_slice() {
                out.push_str(sum(*op))?;
            }
        }
        Expr::Term(_, _, more) => {
            out.push_str("term")?;
            for (op, _, _) in more.as_slice() {
                out.push_str(term(*op))?;
            }
        }
        _ => put_atom(level, out)?,
    }
    Ok(())
}

fn put_cast(kind: &TypeNode, checked: bool, out: &mut String) -> Result<()> {
    out.push('<')?;
    put_type(kind, out)?;
    out.push_str(if checked { "?>" } else { ">" })?;
    Ok(())
}

fn put_atom(atom: &Expr, out: &mut String) -> Result<()> {
    match atom {
        Expr::Name(ident) => {
            out.push_str("name ")?;
            put_ident(ident, out)?;
        }
        Expr::Int(_, value) => write!(out, "int {value}")?,
        Expr::Str(_, text) => write!(out, "'{}'", text.as_str())?,
        Expr::NoneNode(_) => out.push_str("None")?,
        Expr::TrueNode(_) => out.push_str("True")?,
        Expr::FalseNode(_) => out.push_str("False")?,
        Expr::Tuple(_, _) => out.push_str("tuple")?,
        Expr::ListNode(_, _) => out.push_str("list")?,
        Expr::Dict(_, _) => out.push_str("dict")?,
        _ => out.push_str("postfix")?,
    }
    Ok(())
}

fn put_expr(e: &Expr, out: &mut String) -> Result<()> {
    match e {
        Expr::Conditional(_, _, _, _) => out.push_str("if else")?,
        Expr::Or(_, _) => out.push_str("or")?,
        Expr::And(_, _) => out.push_str("and")?,
        Expr::Not(_, _) => out.push_str("not")?,
        Expr::Compare(_, _, op, _, _) => out.push_str(comparison(*op))?,
        Expr::BitOr(_, _, _) => out.push('|')?,
        Expr::BitXor(_, _, _) => out.push('^')?,
        Expr::BitAnd(_, _, _) => out.push('&')?,
        Expr::Unary(_, op, _) => out.push_str(unary(*op))?,
        Expr::Cast(_, kind, checked, _) => put_cast(kind, *checked, out)?,
        _ => put_level(e, out)?,
    }
    Ok(())
}

fn put_part(part: &Part, out: &mut String) -> Result<()> {
    match part {
        Part::Attribute(_, ident) => {
            out.push('.')?;
            put_ident(ident, out)
        }
        Part::Call(_, _) => {
            out.push_str("call")?;
            Ok(())
        }
        Part::Item(_, _) => {
            out.push_str("item")?;
            Ok(())
        }
    }
}

fn put_index(index: &Index, out: &mut String) -> Result<()> {
    match index {
        Index::One(_) => out.push_str("one")?,
        Index::Slice(_, low, high) => {
            out.push_str("slice")?;
            out.push_str(if low.is_some() { " low" } else { "" })?;
            out.push_str(if high.is_some() { " high" } else { "" })?;
        }
    }
    Ok(())
}

fn put_top(top: &Top, out: &mut String) -> Result<()> {
    match top {
        Top::Cimport(cimport) => put_cimport(cimport, out),
        _ => {
            out.push_str("top")?;
            Ok(())
        }
    }
}

fn put_pxd_item(item: &PxdItem, out: &mut String) -> Result<()> {
    match item {
        PxdItem::Cimport(cimport) => put_cimport(cimport, out),
        PxdItem::Pass(_) => {
            out.push_str("pass")?;
            Ok(())
        }
        _ => {
            out.push_str("item")?;
            Ok(())
        }
    }
}

fn put_class_node(class: &Class, out: &mut String) -> Result<()> {
    put_class(&class.name, &class.base, out)
}

fn put_pxd_class_node(class: &PxdClass, out: &mut String) -> Result<()> {
    put_class(&class.name, &class.base, out)
}

fn put_word(word: &str, out: &mut String) -> Result<()> {
    out.push_str(word)?;
    Ok(())
}

fn put_named(word: &str, ident: &Ident, out: &mut String) -> Result<()> {
    out.push_str(word)?;
    put_ident(ident, out)
}

// What stands in declarations.
fn put_declaration(node: Node<'_>, out: &mut String) -> Result<()> {
    match node {
        Node::Class(class) => put_class_node(class, out),
        Node::PxdClass(class) => put_pxd_class_node(class, out),
        Node::Member(member) => put_member(member, out),
        Node::PxdMember(member) => put_pxd_member(member, out),
        Node::CFunction(_) => put_word("function", out),
        Node::Heading(heading) => put_heading(heading, out),
        Node::Header(header) => put_header(header, out),
        Node::Def(def) => put_named("def ", &def.name, out),
        Node::Variables(variables) => {
            put_word("variables", out)?;
            put_behind(&variables.kind, out)
        }
        Node::Param(param) => put_param(param, out),
        Node::Declared(declared) => put_named("declared ", &declared.name, out),
        _ => Ok(()),
    }
}

fn put_own(node: Node<'_>, out: &mut String) -> Result<()> {
    match node {
        Node::File(Content::Implementation(_)) => put_word("pyx", out),
        Node::File(Content::Definition(_)) => put_word("pxd", out),
        Node::Top(top) => put_top(top, out),
        Node::PxdItem(item) => put_pxd_item(item, out),
        Node::Suite(Suite::Inline(_)) => put_word("inline", out),
        Node::Suite(Suite::Block(_)) => put_word("block", out),
        Node::Line(_) => put_word("line", out),
        Node::Stmt(stmt) => put_stmt(stmt, out),
        Node::Arm(_) => put_word("arm", out),
        Node::Handler(handler) => put_handler(handler, out),
        Node::Simple(simple) => put_simple(simple, out),
        Node::Expr(e) => put_expr(e, out),
        Node::Part(part) => put_part(part, out),
        Node::Index(index) => put_index(index, out),
        _ => put_declaration(node, out),
    }
}

// How many nodes are right inside a node.
fn inside(node: Node<'_>) -> usize {
    for place in 0..usize::MAX {
        if node.child(place).is_none() {
            return place;
        }
    }
    usize::MAX
}

fn put_node(node: Node<'_>, out: &mut String) -> Result<()> {
    put_own(node, out)?;
    let count = inside(node);
    write!(out, "/{count}")?;
    Ok(())
}

/// Writes all nodes of a file.
pub fn put_tree(tree: &FileTree, out: &mut String) -> Result<()> {
    for number in 0..tree.nodes() {
        if number > 0 {
            out.push_str(" | ")?;
        }
        if let Some(node) = tree.node(number) {
            put_node(node, out)?;
        }
    }
    Ok(())
}
