// Statements.
ghost use Rattle.std.specs.Prelude.{◌≡◌, ◌+◌, ◌<◌, [], ◌∷◌, map, length, slice_get, MatchOption, IfOk, IfErr, OnOk};
ghost use Rattle.std.specs.Option.{option_map};
ghost use Rattle.c_lower_rules.specs.graph_of.Builder.{node, in_order, after};
ghost use Rattle.c_lower_rules.specs.graph_of.Edges.{deciding, node_at, seeing, scope_behind};
ghost use Rattle.c_lower_rules.specs.graph_of.Expressions.{value_of};
ghost use Rattle.c_lower_rules.specs.graph_of.Statements.{block_row, arms_row, while_row, do_row, for_row, for_loop, for_test, for_step};
ghost use Rattle.c_lower_rules.specs.graph_of.Switch.{groups_row, switch_row};
ghost use Rattle.c_lower_rules.specs.graph_of.Table.{lowered, piece, group_of};
ghost use Rattle.c_lower.specs.Forms.{kind_of, arm_of, span_after};
ghost use Rattle.c_lower.specs.Stopping.{IsStop};

use crate::around::{copied, deciding, inside, stated, within};
use crate::edges::{back_edge, enter_edge, label_edge, skip};
use crate::labels::{cases_from, cases_row, default_from, group_nodes};
use crate::make::{new_node, three_nodes};
use crate::rows::{array, assertion, assign, assuming, call, leave, local};
use crate::scopes::{behind, behind_all};
use crate::stop::Stop;
use crate::values::{condition, part};
use c_lower_rules::graph_of::{Around, Parts};
use c_typed_trees::{TypedExpr, TypedForm, TypedGroup, TypedStatement};
use cfa::StatementKind;
use containers::Boxed;
use std::alloc::Global;

/// The kind of a statement's edges.
#[tactic(auto, unfolding(crate::specs::Forms::kind_of))]
fn kind_of(form: &TypedForm) -> StatementKind
    ensures { result ≡ kind_of form.now }
{
    match form {
        TypedForm::Block(_) | TypedForm::Empty => StatementKind::Empty,
        TypedForm::Local { .. } | TypedForm::LocalArray { .. } => StatementKind::Decl,
        TypedForm::Assign { .. } => StatementKind::Assign,
        TypedForm::Call(_) => StatementKind::Call,
        TypedForm::Label { .. } => StatementKind::Label,
        TypedForm::If { .. } => StatementKind::If,
        TypedForm::While { .. } => StatementKind::While,
        TypedForm::Do { .. } => StatementKind::Do,
        TypedForm::For { .. } => StatementKind::For,
        TypedForm::Switch { .. } => StatementKind::Switch,
        TypedForm::Break | TypedForm::Continue => StatementKind::Jump,
        TypedForm::Return(_) => StatementKind::Return,
        TypedForm::Assert(_) => StatementKind::Assert,
        TypedForm::Assume(_) => StatementKind::Assume,
    }
}

/// Where a statement of a block leads: to a new node before the next one, which sees what it declares, or to the end.
fn next_in_block(
    alloc: Global,
    around: &Around,
    one: &TypedStatement,
    list: &[TypedStatement],
    i: usize,
    z: u32,
    parts: &mut Parts,
) -> Result<(Around, u32), Stop>
    requires { i < length list.now }
    ensures next { IfOk result (λ r. MatchOption (slice_get list.now (i + 1)) ((r.1 ≡ z) × (parts.new ≡ parts.old)) (λ next. (r.0 ≡ seeing around.now (piece one.now).declares (length parts.old.scopes)) × (r.1 ≡ length parts.old.nodes) × (parts.new ≡ after (node (node_at r.0 next.span)) (after (scope_behind around.now (piece one.now).declares) parts.old)))) }
    ensures memory { IfErr result (λ stop. stop ≡ Stop.Memory) }
{
    match list.get(i + 1) {
        None => Ok((copied(around)?, z)),
        Some(next) => {
            let inner = behind(alloc, around, one, parts)?;
            let number = new_node(&inner, next.span, parts)?;
            Ok((inner, number))
        }
    }
}

/// Statements one after another.
#[cycle(statement)]
#[tactic(auto, using(crate::proofs::BlockLaws::block_laws))]
pub(crate) fn block(
    alloc: Global,
    around: &Around,
    a: u32,
    z: u32,
    list: &[TypedStatement],
    parts: &mut Parts,
) -> Result<(), Stop>
    ensures made { OnOk result (parts.new ≡ after (block_row (map piece list.now) around.now a z) parts.old) }
    ensures err { IfErr result (λ stop. IsStop stop (after (block_row (map piece list.now) around.now a z) parts.old)) }
{
    if list.is_empty() {
        let inner = stated(around, around.span, StatementKind::Empty)?;
        return skip(alloc, &inner, a, z, parts);
    }
    let mut here = a;
    let mut now = copied(around)?;
    for (i, one) in list.iter().enumerate() {
        let (inner, to) = next_in_block(alloc, &now, one, list, i, z, parts)?;
        statement(alloc, &now, here, to, one, parts)?;
        now = inner;
        here = to;
    }
    Ok(())
}

/// Where an arm of an `if` leads where its condition doesn't hold: to a new node before what follows, or to the end.
fn else_node(
    around: &Around,
    arms: &[(TypedExpr, TypedStatement)],
    i: usize,
    otherwise: &Option<Boxed<TypedStatement>>,
    z: u32,
    parts: &mut Parts,
) -> Result<u32, Stop>
    requires { i < length arms.now }
    ensures next { IfOk result (λ to. MatchOption (span_after arms.now (i + 1) otherwise.now) ((to ≡ z) × (parts.new ≡ parts.old)) (λ span. (to ≡ length parts.old.nodes) × (parts.new ≡ after (node (node_at around.now span)) parts.old))) }
    ensures memory { IfErr result (λ stop. stop ≡ Stop.Memory) }
{
    match arms.get(i + 1) {
        Some(next) => new_node(around, next.0.span, parts),
        None => match otherwise {
            Some(last) => new_node(around, last.span, parts),
            None => Ok(z),
        },
    }
}

/// The arms of an `if`, and its `else`.
#[cycle(statement)]
#[tactic(auto, using(crate::proofs::BlockLaws::arms_laws))]
fn branches(
    alloc: Global,
    around: &Around,
    a: u32,
    z: u32,
    arms: &[(TypedExpr, TypedStatement)],
    otherwise: &Option<Boxed<TypedStatement>>,
    parts: &mut Parts,
) -> Result<(), Stop>
    ensures made { OnOk result (parts.new ≡ after (arms_row (map arm_of arms.now) (option_map piece otherwise.now) around.now a z) parts.old) }
    ensures err { IfErr result (λ stop. IsStop stop (after (arms_row (map arm_of arms.now) (option_map piece otherwise.now) around.now a z) parts.old)) }
{
    let mut here = a;
    for (i, arm) in arms.iter().enumerate() {
        let t = new_node(around, arm.1.span, parts)?;
        let f = else_node(around, arms, i, otherwise, z, parts)?;
        arm_of(alloc, around, arm, here, t, f, z, parts)?;
        here = f;
    }
    match otherwise {
        Some(last) => statement(alloc, around, here, z, last, parts),
        None => Ok(()),
    }
}

/// The condition of an arm, and its statement.
#[cycle(statement)]
#[tactic(auto, using(crate::proofs::Stops::stopping))]
fn arm_of(
    alloc: Global,
    around: &Around,
    arm: &(TypedExpr, TypedStatement),
    a: u32,
    t: u32,
    f: u32,
    z: u32,
    parts: &mut Parts,
) -> Result<(), Stop>
    ensures made { OnOk result (parts.new ≡ after (lowered arm.now.1 around.now t z) (after ((value_of arm.now.0).cond (deciding around.now t f) a t f) parts.old)) }
    ensures err { IfErr result (λ stop. IsStop stop (after (lowered arm.now.1 around.now t z) (after ((value_of arm.now.0).cond (deciding around.now t f) a t f) parts.old))) }
{
    let inner = deciding(around, t, f)?;
    condition(alloc, &inner, &arm.0, a, t, f, parts)?;
    statement(alloc, around, t, z, &arm.1, parts)
}

/// `while`.
#[cycle(statement)]
#[tactic(auto, using(crate::proofs::LoopLaws::while_laws))]
fn while_loop(
    alloc: Global,
    around: &Around,
    a: u32,
    z: u32,
    test: &TypedExpr,
    body: &TypedStatement,
    parts: &mut Parts,
) -> Result<(), Stop>
    ensures made { OnOk result (parts.new ≡ after (while_row (value_of test.now) (piece body.now) around.now a z) parts.old) }
    ensures err { IfErr result (λ stop. IsStop stop (after (while_row (value_of test.now) (piece body.now) around.now a z) parts.old)) }
{
    let deeper = inside(around, z, z)?;
    let h = three_nodes(&deeper, parts)?;
    let inner = inside(around, z, h + 2)?;
    enter_edge(alloc, around, a, h, parts)?;
    let tested = deciding(&inner, h + 1, z)?;
    condition(alloc, &tested, test, h, h + 1, z, parts)?;
    statement(alloc, &inner, h + 1, h + 2, body, parts)?;
    back_edge(alloc, around, h + 2, h, parts)
}

/// `do`.
#[cycle(statement)]
#[tactic(auto, using(crate::proofs::LoopLaws::do_laws))]
fn do_loop(
    alloc: Global,
    around: &Around,
    a: u32,
    z: u32,
    body: &TypedStatement,
    test: &TypedExpr,
    parts: &mut Parts,
) -> Result<(), Stop>
    ensures made { OnOk result (parts.new ≡ after (do_row (piece body.now) (value_of test.now) around.now a z) parts.old) }
    ensures err { IfErr result (λ stop. IsStop stop (after (do_row (piece body.now) (value_of test.now) around.now a z) parts.old)) }
{
    let deeper = inside(around, z, z)?;
    let t = three_nodes(&deeper, parts)?;
    let inner = inside(around, z, t + 1)?;
    enter_edge(alloc, around, a, t, parts)?;
    statement(alloc, &inner, t, t + 1, body, parts)?;
    let tested = deciding(&inner, t + 2, z)?;
    condition(alloc, &tested, test, t + 1, t + 2, z, parts)?;
    back_edge(alloc, around, t + 2, t, parts)
}

/// The test of a `for`.
#[tactic(auto, using(crate::proofs::LoopLaws::for_test_laws))]
fn for_test(
    alloc: Global,
    around: &Around,
    test: &Option<TypedExpr>,
    h: u32,
    t: u32,
    z: u32,
    parts: &mut Parts,
) -> Result<(), Stop>
    ensures made { OnOk result (parts.new ≡ after (for_test (option_map value_of test.now) around.now h t z) parts.old) }
    ensures err { IfErr result (λ stop. IsStop stop (after (for_test (option_map value_of test.now) around.now h t z) parts.old)) }
{
    match test {
        None => skip(alloc, around, h, t, parts),
        Some(tree) => {
            let tested = deciding(around, t, z)?;
            condition(alloc, &tested, tree, h, t, z, parts)
        }
    }
}

/// The step of a `for`, and its back edge.
#[cycle(statement)]
#[tactic(auto, using(crate::proofs::LoopLaws::for_step_laws))]
fn for_step(
    alloc: Global,
    around: &Around,
    next: &Option<Boxed<TypedStatement>>,
    z: u32,
    h: u32,
    l: u32,
    parts: &mut Parts,
) -> Result<(), Stop>
    ensures made { OnOk result (parts.new ≡ after (for_step (option_map piece next.now) around.now z h l) parts.old) }
    ensures err { IfErr result (λ stop. IsStop stop (after (for_step (option_map piece next.now) around.now z h l) parts.old)) }
{
    match next {
        None => back_edge(alloc, around, l, h, parts),
        Some(tree) => {
            let deeper = inside(around, z, z)?;
            let b = new_node(&deeper, around.span, parts)?;
            let inner = inside(around, z, b)?;
            statement(alloc, &inner, l, b, tree, parts)?;
            back_edge(alloc, around, b, h, parts)
        }
    }
}

/// A `for` behind its first part.
#[cycle(statement)]
#[tactic(auto, using(crate::proofs::LoopLaws::for_loop_laws))]
fn for_loop(
    alloc: Global,
    around: &Around,
    i: u32,
    z: u32,
    test: &Option<TypedExpr>,
    next: &Option<Boxed<TypedStatement>>,
    body: &TypedStatement,
    parts: &mut Parts,
) -> Result<(), Stop>
    ensures made { OnOk result (parts.new ≡ after (for_loop (option_map value_of test.now) (option_map piece next.now) (piece body.now) around.now i z) parts.old) }
    ensures err { IfErr result (λ stop. IsStop stop (after (for_loop (option_map value_of test.now) (option_map piece next.now) (piece body.now) around.now i z) parts.old)) }
{
    let deeper = inside(around, z, z)?;
    let h = three_nodes(&deeper, parts)?;
    let inner = inside(around, z, h + 2)?;
    enter_edge(alloc, around, i, h, parts)?;
    for_test(alloc, &inner, test, h, h + 1, z, parts)?;
    statement(alloc, &inner, h + 1, h + 2, body, parts)?;
    for_step(alloc, around, next, z, h, h + 2, parts)
}

/// `for`.
#[cycle(statement)]
#[tactic(auto, using(crate::proofs::LoopLaws::for_laws))]
fn for_statement(
    alloc: Global,
    around: &Around,
    a: u32,
    z: u32,
    first: &[TypedStatement],
    test: &Option<TypedExpr>,
    next: &Option<Boxed<TypedStatement>>,
    body: &TypedStatement,
    parts: &mut Parts,
) -> Result<(), Stop>
    ensures made { OnOk result (parts.new ≡ after (for_row (map piece first.now) (option_map value_of test.now) (option_map piece next.now) (piece body.now) around.now a z) parts.old) }
    ensures err { IfErr result (λ stop. IsStop stop (after (for_row (map piece first.now) (option_map value_of test.now) (option_map piece next.now) (piece body.now) around.now a z) parts.old)) }
{
    if first.is_empty() {
        return for_loop(alloc, around, a, z, test, next, body, parts);
    }
    let inner = behind_all(alloc, around, first, parts)?;
    let i = new_node(&inner, inner.span, parts)?;
    block(alloc, around, a, i, first, parts)?;
    for_loop(alloc, &inner, i, z, test, next, body, parts)
}

/// Where the statements of a group lead: to the next group's node, or to the end.
fn group_end(groups: &[TypedGroup], i: usize, from: u32, z: u32) -> u32
    requires room { from + 1 < 4294967296 }
    requires inside { i < length groups.now }
    ensures { MatchOption (slice_get groups.now (i + 1)) (result ≡ z) (λ _. result ≡ from + 1) }
{
    match groups.get(i + 1) {
        None => z,
        Some(_) => from + 1,
    }
}

/// The groups of a `switch`, each as a block from its node to the next one's, the last to the end.
#[cycle(statement)]
#[tactic(auto, using(crate::proofs::Stops::stopping))]
fn groups_row(
    alloc: Global,
    around: &Around,
    groups: &[TypedGroup],
    g: u32,
    z: u32,
    parts: &mut Parts,
) -> Result<(), Stop>
    requires { g + length groups.now < 4294967296 }
    ensures made { OnOk result (parts.new ≡ after (in_order (groups_row (map group_of groups.now) around.now g z)) parts.old) }
    ensures err { IfErr result (λ stop. IsStop stop (after (in_order (groups_row (map group_of groups.now) around.now g z)) parts.old)) }
{
    for (i, group) in groups.iter().enumerate() {
        let from = g + i as u32;
        let to = group_end(groups, i, from, z);
        block(alloc, around, from, to, &group.body, parts)?;
    }
    Ok(())
}

/// `switch`.
#[cycle(statement)]
#[tactic(auto, using(crate::proofs::SwitchLaws::switch_laws))]
fn switch(
    alloc: Global,
    around: &Around,
    a: u32,
    z: u32,
    tree: &TypedExpr,
    cell: u32,
    groups: &[TypedGroup],
    parts: &mut Parts,
) -> Result<(), Stop>
    ensures made { OnOk result (parts.new ≡ after (switch_row (value_of tree.now) cell (map group_of groups.now) around.now a z) parts.old) }
    ensures err { IfErr result (λ stop. IsStop stop (after (switch_row (value_of tree.now) cell (map group_of groups.now) around.now a z) parts.old)) }
{
    let g = group_nodes(around, groups, parts)?;
    let c = new_node(around, around.span, parts)?;
    part(alloc, around, tree, cell, a, c, parts)?;
    let cases = cases_from(alloc, g, groups)?;
    let other = default_from(g, groups, z);
    cases_row(alloc, around, cell, tree.kind, &cases, other, c, parts)?;
    let inner = within(around, z)?;
    groups_row(alloc, &inner, groups, g, z, parts)
}

/// The nodes and edges of a statement from one node to another.
#[cycle(statement)]
#[tactic(auto, using(crate::proofs::StatementLaws::statement_laws))]
pub(crate) fn statement(
    alloc: Global,
    around: &Around,
    a: u32,
    z: u32,
    tree: &TypedStatement,
    parts: &mut Parts,
) -> Result<(), Stop>
    ensures made { OnOk result (parts.new ≡ after (lowered tree.now around.now a z) parts.old) }
    ensures err { IfErr result (λ stop. IsStop stop (after (lowered tree.now around.now a z) parts.old)) }
{
    let inner = stated(around, tree.span, kind_of(&tree.form))?;
    match &tree.form {
        TypedForm::Block(body) => block(alloc, &inner, a, z, body, parts),
        TypedForm::Empty => skip(alloc, &inner, a, z, parts),
        TypedForm::Local { variable, first } => {
            local(alloc, &inner, a, z, variable, first, parts)
        }
        TypedForm::LocalArray { variable, list } => {
            array(alloc, &inner, a, z, variable, list, parts)
        }
        TypedForm::Assign {
            place,
            operator,
            value,
        } => assign(alloc, &inner, a, z, place, *operator, value, parts),
        TypedForm::Call(tree) => call(alloc, &inner, a, z, tree, parts),
        TypedForm::Label { name, body } => {
            let n = new_node(&inner, inner.span, parts)?;
            label_edge(alloc, &inner, name, a, n, parts)?;
            statement(alloc, &inner, n, z, body, parts)
        }
        TypedForm::If { arms, otherwise } => {
            branches(alloc, &inner, a, z, arms, otherwise, parts)
        }
        TypedForm::While { test, body } => { while_loop(alloc, &inner, a, z, test, body, parts) }
        TypedForm::Do { body, test } => do_loop(alloc, &inner, a, z, body, test, parts),
        TypedForm::For {
            first,
            test,
            next,
            body,
        } => for_statement(alloc, &inner, a, z, first, test, next, body, parts),
        TypedForm::Switch {
            value,
            cell,
            groups,
        } => switch(alloc, &inner, a, z, value, *cell, groups, parts),
        TypedForm::Break => skip(alloc, &inner, a, around.on_break, parts),
        TypedForm::Continue => skip(alloc, &inner, a, around.on_continue, parts),
        TypedForm::Return(tree) => leave(alloc, &inner, a, tree, parts),
        TypedForm::Assert(tree) => assertion(alloc, &inner, a, z, tree, parts),
        TypedForm::Assume(tree) => assuming(alloc, &inner, a, z, tree, parts),
    }
}
