// The literals that a program writes, in the order of its text.
ghost use Rattle.std.specs.Prelude.{◌≡◌, [], ◌∷◌, ◌++◌, IfOk, OnOk};
ghost use Rattle.st_code.specs.Written.{named_literal, named_primary, named_statement, named_block, named_body, named_expr, named_message, named_operand, named_messages, named_operands, named_statements, named_unit, named_units};
ghost use Rattle.st_literals.specs.Gathered.{primary_literals, operand_literals, operands_literals, messages_literals, expr_literals, statements_literals, message_literals, kind_literals, units_literals, seen_literals};

use sqlite_items::Items;
use st_base::OutOfMemory;
use st_tree::tree::{Block, Body, Expr, Literal, Message, Operand, Primary, Statement};
use st_tree::units::{Unit, UnitKind};
use std::alloc::Global;

fn gather_literal<'a>(all: &mut Items<&'a Literal>, literal: &'a Literal) -> Result<(), OutOfMemory>
    ensures { OnOk result (seen_literals all.new ≡ seen_literals all.old ++ named_literal literal.now ∷ []) }
{
    all.push(literal)?;
    Ok(())
}

#[cycle(gather)]
fn gather_operands<'a>(
    all: &mut Items<&'a Literal>,
    operands: &'a [Operand],
) -> Result<(), OutOfMemory>
    ensures { OnOk result (seen_literals all.new ≡ seen_literals all.old ++ operands_literals (named_operands operands.now)) }
{
    for operand in operands {
        gather_operand(all, operand)?;
    }
    Ok(())
}

#[cycle(gather)]
fn gather_messages<'a>(
    all: &mut Items<&'a Literal>,
    messages: &'a [Message],
) -> Result<(), OutOfMemory>
    ensures { OnOk result (seen_literals all.new ≡ seen_literals all.old ++ messages_literals (named_messages messages.now)) }
{
    for message in messages {
        gather_message(all, message)?;
    }
    Ok(())
}

#[cycle(gather)]
fn gather_statements<'a>(
    all: &mut Items<&'a Literal>,
    statements: &'a [Statement],
) -> Result<(), OutOfMemory>
    ensures { OnOk result (seen_literals all.new ≡ seen_literals all.old ++ statements_literals (named_statements statements.now)) }
{
    for statement in statements {
        gather_statement(all, statement)?;
    }
    Ok(())
}

#[cycle(gather)]
fn gather_primary<'a>(all: &mut Items<&'a Literal>, primary: &'a Primary) -> Result<(), OutOfMemory>
    ensures { OnOk result (seen_literals all.new ≡ seen_literals all.old ++ primary_literals (named_primary primary.now)) }
{
    match primary {
        Primary::Variable(_) => Ok(()),
        Primary::SelfValue => Ok(()),
        Primary::SuperValue => Ok(()),
        Primary::Literal(literal) => gather_literal(all, literal),
        Primary::Block(block) => gather_block(all, block),
        Primary::Paren(expr) => gather_expr(all, expr.get()),
    }
}

#[cycle(gather)]
fn gather_block<'a>(all: &mut Items<&'a Literal>, block: &'a Block) -> Result<(), OutOfMemory>
    ensures { OnOk result (seen_literals all.new ≡ seen_literals all.old ++ statements_literals (named_block block.now).body.statements) }
{
    gather_body(all, &block.body)
}

#[cycle(gather)]
fn gather_message<'a>(all: &mut Items<&'a Literal>, message: &'a Message) -> Result<(), OutOfMemory>
    ensures { OnOk result (seen_literals all.new ≡ seen_literals all.old ++ message_literals (named_message message.now)) }
{
    gather_operands(all, message.arguments.as_slice())
}

#[cycle(gather)]
fn gather_operand<'a>(all: &mut Items<&'a Literal>, operand: &'a Operand) -> Result<(), OutOfMemory>
    ensures { OnOk result (seen_literals all.new ≡ seen_literals all.old ++ operand_literals (named_operand operand.now)) }
{
    gather_primary(all, &operand.primary)?;
    gather_messages(all, operand.chain.as_slice())
}

#[cycle(gather)]
fn gather_expr<'a>(all: &mut Items<&'a Literal>, expr: &'a Expr) -> Result<(), OutOfMemory>
    ensures { OnOk result (seen_literals all.new ≡ seen_literals all.old ++ expr_literals (named_expr expr.now)) }
{
    gather_operand(all, &expr.operand)?;
    gather_messages(all, expr.cascade.as_slice())
}

#[cycle(gather)]
fn gather_statement<'a>(
    all: &mut Items<&'a Literal>,
    statement: &'a Statement,
) -> Result<(), OutOfMemory>
    ensures { OnOk result (seen_literals all.new ≡ seen_literals all.old ++ expr_literals (named_statement statement.now).expr) }
{
    match statement {
        Statement::Value(expr) => gather_expr(all, expr),
        Statement::Return(expr) => gather_expr(all, expr),
    }
}

#[cycle(gather)]
fn gather_body<'a>(all: &mut Items<&'a Literal>, body: &'a Body) -> Result<(), OutOfMemory>
    ensures { OnOk result (seen_literals all.new ≡ seen_literals all.old ++ statements_literals (named_body body.now).statements) }
{
    gather_statements(all, body.statements.as_slice())
}

fn gather_unit<'a>(all: &mut Items<&'a Literal>, unit: &'a Unit) -> Result<(), OutOfMemory>
    ensures { OnOk result (seen_literals all.new ≡ seen_literals all.old ++ kind_literals (named_unit unit.now)) }
{
    match &unit.kind {
        UnitKind::Initializer { body, .. } => gather_body(all, body),
        UnitKind::PoolInitializer { body, .. } => gather_body(all, body),
        UnitKind::ProgramInitializer(body) => gather_body(all, body),
        UnitKind::Method { method, .. } => gather_body(all, &method.body),
        UnitKind::ClassMethod { method, .. } => gather_body(all, &method.body),
        UnitKind::Version(_)
        | UnitKind::Class(_)
        | UnitKind::GlobalVariable(_)
        | UnitKind::GlobalConstant(_)
        | UnitKind::Pool(_)
        | UnitKind::PoolVariable { .. }
        | UnitKind::PoolConstant { .. }
        | UnitKind::Comment(_) => Ok(()),
    }
}

/// The literals of a program.
pub(crate) fn literals_of<'a>(
    alloc: Global,
    units: &'a [Unit],
) -> Result<Items<&'a Literal>, OutOfMemory>
    ensures { IfOk result (λ all. seen_literals all ≡ units_literals (named_units units.now)) }
{
    let mut all = Items::new(alloc);
    for unit in units {
        gather_unit(&mut all, unit)?;
    }
    Ok(all)
}
