ghost use Rattle.std.specs.Prelude.{◌≡◌, IfErr, IfOk, [], map, slice_get, suc, ◌++◌, ◌∷◌};
ghost use Rattle.std.specs.Option.{option_map};
ghost use Rattle.cy_tree.specs.Nodes.{ArmNode, CFunctionNode, DefNode, ExprNode, HandlerNode, IndexNode, each_pair, simple_children, PartNode, StmtNode, SuiteNode, children, content_children, item_children, member_children, optional, pxd_member_children, top_children};
ghost use Rattle.cy_tree.specs.Seen.{seen};

use crate::content::Content;
use crate::decl::{
    CFunction, Class, Def, Header, Heading, Member, Param, PxdClass, PxdItem, PxdMember, Top,
    Variables,
};
use crate::expr::{Expr, Index, Operand, Pair, Part, ShiftOperand, SumOperand, TermOperand};
use crate::stmt::{Arm, Declared, Handler, Line, Simple, Stmt, Suite};
use sqlite_items::{Boxed, Items};

/// A node of a file: what can hold an expression or a statement. The project's own.
#[derive(Clone, Copy)]
pub enum Node<'a> {
    File(&'a Content),
    Top(&'a Top),
    PxdItem(&'a PxdItem),
    Class(&'a Class),
    PxdClass(&'a PxdClass),
    Member(&'a Member),
    PxdMember(&'a PxdMember),
    CFunction(&'a CFunction),
    Heading(&'a Heading),
    Header(&'a Header),
    Def(&'a Def),
    Variables(&'a Variables),
    Param(&'a Param),
    Declared(&'a Declared),
    Suite(&'a Suite),
    Line(&'a Line),
    Stmt(&'a Stmt),
    Arm(&'a Arm),
    Handler(&'a Handler),
    Simple(&'a Simple),
    Expr(&'a Expr),
    Part(&'a Part),
    Index(&'a Index),
}

fn expr_at(items: &Items<Expr>, place: usize) -> Option<Node<'_>>
    ensures { option_map seen result ≡ slice_get (map ExprNode items.entry.now) place }
{
    Some(Node::Expr(items.get(place)?))
}

fn index_at(items: &Items<Index>, place: usize) -> Option<Node<'_>>
    ensures { option_map seen result ≡ slice_get (map IndexNode items.entry.now) place }
{
    Some(Node::Index(items.get(place)?))
}

fn part_at(items: &Items<Part>, place: usize) -> Option<Node<'_>>
    ensures { option_map seen result ≡ slice_get (map PartNode items.entry.now) place }
{
    Some(Node::Part(items.get(place)?))
}

fn stmt_at(items: &Items<Stmt>, place: usize) -> Option<Node<'_>>
    ensures { option_map seen result ≡ slice_get (map StmtNode items.entry.now) place }
{
    Some(Node::Stmt(items.get(place)?))
}

fn bit_operand_at(items: &Items<Operand>, place: usize) -> Option<Node<'_>>
    ensures { option_map seen result ≡ slice_get (map (λ o. ExprNode o.1) items.entry.now) place }
{
    Some(Node::Expr(&items.get(place)?.1))
}

fn shift_operand_at(items: &Items<ShiftOperand>, place: usize) -> Option<Node<'_>>
    ensures { option_map seen result ≡ slice_get (map (λ o. ExprNode o.2) items.entry.now) place }
{
    Some(Node::Expr(&items.get(place)?.2))
}

fn sum_operand_at(items: &Items<SumOperand>, place: usize) -> Option<Node<'_>>
    ensures { option_map seen result ≡ slice_get (map (λ o. ExprNode o.2) items.entry.now) place }
{
    Some(Node::Expr(&items.get(place)?.2))
}

fn term_operand_at(items: &Items<TermOperand>, place: usize) -> Option<Node<'_>>
    ensures { option_map seen result ≡ slice_get (map (λ o. ExprNode o.2) items.entry.now) place }
{
    Some(Node::Expr(&items.get(place)?.2))
}

fn pair_at(pairs: &Items<Pair>, place: usize) -> Option<Node<'_>>
    ensures { option_map seen result ≡ slice_get (each_pair pairs.entry.now) place }
{
    let pair = pairs.get(place / 2)?;
    if place % 2 == 0 {
        Some(Node::Expr(&pair.0))
    } else {
        Some(Node::Expr(&pair.1))
    }
}

fn content_child(content: &Content, place: usize) -> Option<Node<'_>>
    ensures { option_map seen result ≡ slice_get (content_children content.entry.now) place }
{
    match content {
        Content::Implementation(tops) => Some(Node::Top(tops.get(place)?)),
        Content::Definition(items) => Some(Node::PxdItem(items.get(place)?)),
    }
}

fn top_child(top: &Top, place: usize) -> Option<Node<'_>>
    ensures { option_map seen result ≡ slice_get (top_children top.entry.now) place }
{
    if place > 0 {
        return None;
    }
    match top {
        Top::Cimport(_) => None,
        Top::Class(class) => Some(Node::Class(class)),
        Top::Function(function) => Some(Node::CFunction(function)),
        Top::Variables(variables) => Some(Node::Variables(variables)),
        Top::Def(def) => Some(Node::Def(def)),
        Top::Stmt(stmt) => Some(Node::Stmt(stmt)),
    }
}

fn item_child(item: &PxdItem, place: usize) -> Option<Node<'_>>
    ensures { option_map seen result ≡ slice_get (item_children item.entry.now) place }
{
    if place > 0 {
        return None;
    }
    match item {
        PxdItem::Class(class) => Some(Node::PxdClass(class)),
        PxdItem::Function(heading) => Some(Node::Heading(heading)),
        _ => None,
    }
}

fn member_child(member: &Member, place: usize) -> Option<Node<'_>>
    ensures { option_map seen result ≡ slice_get (member_children member.entry.now) place }
{
    if place > 0 {
        return None;
    }
    match member {
        Member::Def(def) => Some(Node::Def(def)),
        Member::Method(function) => Some(Node::CFunction(function)),
        _ => None,
    }
}

fn pxd_member_child(member: &PxdMember, place: usize) -> Option<Node<'_>>
    ensures { option_map seen result ≡ slice_get (pxd_member_children member.entry.now) place }
{
    match (member, place) {
        (PxdMember::Method(heading), 0) => Some(Node::Heading(heading)),
        _ => None,
    }
}

fn optional_child(value: &Option<Expr>, place: usize) -> Option<Node<'_>>
    ensures { option_map seen result ≡ slice_get (optional ExprNode value.entry.now) place }
{
    match value {
        Some(value) if place == 0 => Some(Node::Expr(value)),
        _ => None,
    }
}

fn function_child(function: &CFunction, place: usize) -> Option<Node<'_>>
    ensures { option_map seen result ≡ slice_get (children (CFunctionNode function.entry.now)) place }
{
    match place {
        0 => Some(Node::Heading(&function.heading)),
        1 => Some(Node::Suite(&function.body)),
        _ => None,
    }
}

fn def_child(def: &Def, place: usize) -> Option<Node<'_>>
    ensures { option_map seen result ≡ slice_get (children (DefNode def.entry.now)) place }
{
    match def.params.get(place) {
        Some(param) => Some(Node::Param(param)),
        None if place == def.params.len() => Some(Node::Suite(&def.body)),
        None => None,
    }
}

fn suite_child(suite: &Suite, place: usize) -> Option<Node<'_>>
    ensures { option_map seen result ≡ slice_get (children (SuiteNode suite.entry.now)) place }
{
    match suite {
        Suite::Inline(line) if place == 0 => Some(Node::Line(line)),
        Suite::Inline(_) => None,
        Suite::Block(statements) => stmt_at(statements, place),
    }
}

fn arm_child(arm: &Arm, place: usize) -> Option<Node<'_>>
    ensures { option_map seen result ≡ slice_get (children (ArmNode arm.entry.now)) place }
{
    match place {
        0 => Some(Node::Expr(&arm.test)),
        1 => Some(Node::Suite(arm.body.get())),
        _ => None,
    }
}

fn part_child(part: &Part, place: usize) -> Option<Node<'_>>
    ensures { option_map seen result ≡ slice_get (children (PartNode part.entry.now)) place }
{
    match part {
        Part::Attribute(_, _) => None,
        Part::Call(_, arguments) => expr_at(arguments, place),
        Part::Item(_, indexes) => index_at(indexes, place),
    }
}

fn handler_child(handler: &Handler, place: usize) -> Option<Node<'_>>
    ensures { option_map seen result ≡ slice_get (children (HandlerNode handler.entry.now)) place }
{
    match (&handler.kind, place) {
        (Some(kind), 0) => Some(Node::Expr(kind)),
        (Some(_), 1) => Some(Node::Suite(handler.body.get())),
        (None, 0) => Some(Node::Suite(handler.body.get())),
        _ => None,
    }
}

fn index_child(index: &Index, place: usize) -> Option<Node<'_>>
    ensures { option_map seen result ≡ slice_get (children (IndexNode index.entry.now)) place }
{
    match index {
        Index::One(value) if place == 0 => Some(Node::Expr(value)),
        Index::One(_) => None,
        Index::Slice(_, low, high) => slice_child(low, high, place),
    }
}

fn assign_child<'a>(targets: &'a Items<Expr>, value: &'a Expr, place: usize) -> Option<Node<'a>>
    ensures { option_map seen result ≡ slice_get (map ExprNode targets.entry.now ++ ExprNode value.entry.now ∷ []) place }
{
    match targets.get(place) {
        Some(target) => Some(Node::Expr(target)),
        None if place == targets.len() => Some(Node::Expr(value)),
        None => None,
    }
}

fn simple_child(simple: &Simple, place: usize) -> Option<Node<'_>>
    ensures { option_map seen result ≡ slice_get (simple_children simple.entry.now) place }
{
    match simple {
        Simple::ReturnNode(_, value) => optional_child(value, place),
        Simple::Raise(_, value) => optional_child(value, place),
        Simple::Del(_, values) => expr_at(values, place),
        Simple::Cdef(_, _, names) => Some(Node::Declared(names.get(place)?)),
        Simple::Expression(value) => one_child(Node::Expr(value), place),
        Simple::Augmented(target, _, _, value) => {
            two_children(Node::Expr(target), Node::Expr(value), place)
        }
        Simple::Assign(targets, value) => assign_child(targets, value, place),
        _ => None,
    }
}

fn one_child(first: Node<'_>, place: usize) -> Option<Node<'_>>
    ensures { option_map seen result ≡ slice_get (seen first.entry ∷ []) place }
{
    if place == 0 { Some(first) } else { None }
}

fn two_children<'a>(first: Node<'a>, second: Node<'a>, place: usize) -> Option<Node<'a>>
    ensures { option_map seen result ≡ slice_get (seen first.entry ∷ seen second.entry ∷ []) place }
{
    match place {
        0 => Some(first),
        1 => Some(second),
        _ => None,
    }
}

fn three_children<'a>(
    first: Node<'a>,
    second: Node<'a>,
    third: Node<'a>,
    place: usize,
) -> Option<Node<'a>>
    ensures { option_map seen result ≡ slice_get (seen first.entry ∷ seen second.entry ∷ seen third.entry ∷ []) place }
{
    match place {
        0 => Some(first),
        1 => Some(second),
        2 => Some(third),
        _ => None,
    }
}

fn slice_child<'a>(
    low: &'a Option<Boxed<Expr>>,
    high: &'a Option<Boxed<Expr>>,
    place: usize,
) -> Option<Node<'a>>
    ensures { option_map seen result ≡ slice_get (optional ExprNode low.entry.now ++ optional ExprNode high.entry.now) place }
{
    match (low, high) {
        (Some(low), Some(high)) => {
            two_children(Node::Expr(low.get()), Node::Expr(high.get()), place)
        }
        (Some(low), None) => one_child(Node::Expr(low.get()), place),
        (None, Some(high)) => one_child(Node::Expr(high.get()), place),
        (None, None) => None,
    }
}

// The operands of a level: the first, and those behind the operators.
fn bit_operand_child<'a>(
    first: &'a Expr,
    more: &'a Items<Operand>,
    place: usize,
) -> Option<Node<'a>>
    ensures { option_map seen result ≡ slice_get (ExprNode first.entry.now ∷ map (λ o. ExprNode o.1) more.entry.now) place }
{
    if place == 0 {
        Some(Node::Expr(first))
    } else {
        bit_operand_at(more, place - 1)
    }
}

// The operands of a level: the first, and those behind the operators.
fn shift_operand_child<'a>(
    first: &'a Expr,
    more: &'a Items<ShiftOperand>,
    place: usize,
) -> Option<Node<'a>>
    ensures { option_map seen result ≡ slice_get (ExprNode first.entry.now ∷ map (λ o. ExprNode o.2) more.entry.now) place }
{
    if place == 0 {
        Some(Node::Expr(first))
    } else {
        shift_operand_at(more, place - 1)
    }
}

// The operands of a level: the first, and those behind the operators.
fn sum_operand_child<'a>(
    first: &'a Expr,
    more: &'a Items<SumOperand>,
    place: usize,
) -> Option<Node<'a>>
    ensures { option_map seen result ≡ slice_get (ExprNode first.entry.now ∷ map (λ o. ExprNode o.2) more.entry.now) place }
{
    if place == 0 {
        Some(Node::Expr(first))
    } else {
        sum_operand_at(more, place - 1)
    }
}

// The operands of a level: the first, and those behind the operators.
fn term_operand_child<'a>(
    first: &'a Expr,
    more: &'a Items<TermOperand>,
    place: usize,
) -> Option<Node<'a>>
    ensures { option_map seen result ≡ slice_get (ExprNode first.entry.now ∷ map (λ o. ExprNode o.2) more.entry.now) place }
{
    if place == 0 {
        Some(Node::Expr(first))
    } else {
        term_operand_at(more, place - 1)
    }
}

// The atom of a postfix, and its parts.
fn postfix_child<'a>(first: &'a Expr, more: &'a Items<Part>, place: usize) -> Option<Node<'a>>
    ensures { option_map seen result ≡ slice_get (ExprNode first.entry.now ∷ map PartNode more.entry.now) place }
{
    if place == 0 {
        Some(Node::Expr(first))
    } else {
        part_at(more, place - 1)
    }
}

fn expr_child(expr: &Expr, place: usize) -> Option<Node<'_>>
    ensures { option_map seen result ≡ slice_get (children (ExprNode expr.entry.now)) place }
{
    match expr {
        Expr::Conditional(_, value, test, other) => three_children(
            Node::Expr(value.get()),
            Node::Expr(test.get()),
            Node::Expr(other.get()),
            place,
        ),
        Expr::Or(_, operands) => expr_at(operands, place),
        Expr::And(_, operands) => expr_at(operands, place),
        Expr::Not(_, operand) => one_child(Node::Expr(operand.get()), place),
        Expr::Compare(_, left, _, _, right) => {
            two_children(Node::Expr(left.get()), Node::Expr(right.get()), place)
        }
        Expr::BitOr(_, first, more) => bit_operand_child(first.get(), more, place),
        Expr::BitXor(_, first, more) => bit_operand_child(first.get(), more, place),
        Expr::BitAnd(_, first, more) => bit_operand_child(first.get(), more, place),
        Expr::Shift(_, first, more) => shift_operand_child(first.get(), more, place),
        Expr::Sum(_, first, more) => sum_operand_child(first.get(), more, place),
        Expr::Term(_, first, more) => term_operand_child(first.get(), more, place),
        Expr::Unary(_, _, operand) => one_child(Node::Expr(operand.get()), place),
        Expr::Cast(_, _, _, operand) => one_child(Node::Expr(operand.get()), place),
        Expr::Postfix(_, atom, parts) => postfix_child(atom.get(), parts, place),
        Expr::Tuple(_, items) => expr_at(items, place),
        Expr::ListNode(_, items) => expr_at(items, place),
        Expr::Dict(_, pairs) => pair_at(pairs, place),
        _ => None,
    }
}

fn suite_at(suite: &Option<Boxed<Suite>>, place: usize) -> Option<Node<'_>>
    ensures { option_map seen result ≡ slice_get (optional SuiteNode suite.entry.now) place }
{
    match suite {
        Some(suite) if place == 0 => Some(Node::Suite(suite.get())),
        _ => None,
    }
}

fn if_child<'a>(
    arms: &'a Items<Arm>,
    other: &'a Option<Boxed<Suite>>,
    place: usize,
) -> Option<Node<'a>>
    ensures { option_map seen result ≡ slice_get (map ArmNode arms.entry.now ++ optional SuiteNode other.entry.now) place }
{
    match arms.get(place) {
        Some(arm) => Some(Node::Arm(arm)),
        None => suite_at(other, place - arms.len()),
    }
}

// The suites of `else` and of `finally`, where they are there.
fn last_suites<'a>(
    other: &'a Option<Boxed<Suite>>,
    last: &'a Option<Boxed<Suite>>,
    place: usize,
) -> Option<Node<'a>>
    ensures { option_map seen result ≡ slice_get (optional SuiteNode other.entry.now ++ optional SuiteNode last.entry.now) place }
{
    match (other, place) {
        (Some(other), 0) => Some(Node::Suite(other.get())),
        (Some(_), _) => suite_at(last, place - 1),
        (None, _) => suite_at(last, place),
    }
}

fn behind_body<'a>(
    handlers: &'a Items<Handler>,
    other: &'a Option<Boxed<Suite>>,
    last: &'a Option<Boxed<Suite>>,
    place: usize,
) -> Option<Node<'a>>
    ensures { option_map seen result ≡ slice_get (map HandlerNode handlers.entry.now
        ++ (optional SuiteNode other.entry.now ++ optional SuiteNode last.entry.now)) place }
{
    match handlers.get(place) {
        Some(handler) => Some(Node::Handler(handler)),
        None => last_suites(other, last, place - handlers.len()),
    }
}

fn while_child<'a>(
    test: &'a Expr,
    body: &'a Suite,
    other: &'a Option<Boxed<Suite>>,
    place: usize,
) -> Option<Node<'a>>
    ensures { option_map seen result ≡ slice_get (ExprNode test.entry.now ∷ SuiteNode body.entry.now
        ∷ optional SuiteNode other.entry.now) place }
{
    match place {
        0 => Some(Node::Expr(test)),
        1 => Some(Node::Suite(body)),
        _ => suite_at(other, place - 2),
    }
}

fn for_child<'a>(
    target: &'a Expr,
    over: &'a Expr,
    body: &'a Suite,
    other: &'a Option<Boxed<Suite>>,
    place: usize,
) -> Option<Node<'a>>
    ensures { option_map seen result ≡ slice_get (ExprNode target.entry.now ∷ ExprNode over.entry.now
        ∷ SuiteNode body.entry.now ∷ optional SuiteNode other.entry.now) place }
{
    match place {
        0 => Some(Node::Expr(target)),
        1 => Some(Node::Expr(over)),
        2 => Some(Node::Suite(body)),
        _ => suite_at(other, place - 3),
    }
}

fn try_child<'a>(
    body: &'a Suite,
    handlers: &'a Items<Handler>,
    other: &'a Option<Boxed<Suite>>,
    last: &'a Option<Boxed<Suite>>,
    place: usize,
) -> Option<Node<'a>>
    ensures { option_map seen result ≡ slice_get (SuiteNode body.entry.now ∷ map HandlerNode handlers.entry.now
        ++ (optional SuiteNode other.entry.now ++ optional SuiteNode last.entry.now)) place }
{
    if place == 0 {
        Some(Node::Suite(body))
    } else {
        behind_body(handlers, other, last, place - 1)
    }
}

fn stmt_child(stmt: &Stmt, place: usize) -> Option<Node<'_>>
    ensures { option_map seen result ≡ slice_get (children (StmtNode stmt.entry.now)) place }
{
    match stmt {
        Stmt::Simples(line) => one_child(Node::Line(line), place),
        Stmt::IfNode(_, arms, other) => if_child(arms, other, place),
        Stmt::WhileNode(_, test, body, other) => while_child(test, body.get(), other, place),
        Stmt::ForNode(_, target, over, body, other) => {
            for_child(target, over, body.get(), other, place)
        }
        Stmt::Try(_, body, handlers, other, last) => {
            try_child(body.get(), handlers, other, last, place)
        }
        Stmt::With(_, _, body) => one_child(Node::Suite(body.get()), place),
    }
}

impl<'a> Node<'a> {
    /// The node at a place among those right inside this one, which are counted from 0 in text order.
    pub fn child(self, place: usize) -> Option<Node<'a>>
        ensures { option_map seen result ≡ slice_get (children (seen self.entry)) place }
    {
        match self {
            Node::File(content) => content_child(content, place),
            Node::Top(top) => top_child(top, place),
            Node::PxdItem(item) => item_child(item, place),
            Node::Class(class) => Some(Node::Member(class.members.get(place)?)),
            Node::PxdClass(class) => Some(Node::PxdMember(class.members.get(place)?)),
            Node::Member(member) => member_child(member, place),
            Node::PxdMember(member) => pxd_member_child(member, place),
            Node::CFunction(function) => function_child(function, place),
            Node::Heading(heading) => one_child(Node::Header(&heading.header), place),
            Node::Header(header) => Some(Node::Param(header.params.get(place)?)),
            Node::Def(def) => def_child(def, place),
            Node::Variables(variables) => Some(Node::Declared(variables.names.get(place)?)),
            Node::Param(param) => optional_child(&param.default, place),
            Node::Declared(declared) => optional_child(&declared.value, place),
            Node::Suite(suite) => suite_child(suite, place),
            Node::Line(line) => Some(Node::Simple(line.simples.get(place)?)),
            Node::Stmt(stmt) => stmt_child(stmt, place),
            Node::Arm(arm) => arm_child(arm, place),
            Node::Handler(handler) => handler_child(handler, place),
            Node::Simple(simple) => simple_child(simple, place),
            Node::Expr(expr) => expr_child(expr, place),
            Node::Part(part) => part_child(part, place),
            Node::Index(index) => index_child(index, place),
        }
    }
}
