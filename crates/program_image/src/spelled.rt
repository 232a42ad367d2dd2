// The selectors and symbols of a program, numbered as they are spelled.
ghost use Rattle.std.specs.Prelude.{◌≡◌, IfOk, OnOk, map};
ghost use Rattle.st_base.specs.BuiltIns.{messages};
ghost use Rattle.std.specs.Str.{bytes_eq};
ghost use Rattle.indexmap.specs.IndexSet.{insert_key};
ghost use Rattle.st_code.specs.Written.{named_literal, named_primary, named_statement, named_block, named_body, named_expr, named_message, named_operand, named_messages, named_operands, named_statements, named_method, named_unit, named_units};
ghost use Rattle.program_image.specs.Spelled.{literal_texts, primary_texts, operand_texts, operands_texts, messages_texts, expr_texts, statements_texts, message_texts, method_texts, kind_texts, selector_of, spelled, names_in};

use sqlite_items::Items;
use st_base::{OutOfMemory, built_in_messages};
use st_names::Names;
use st_tree::tree::{Block, Body, Expr, Literal, Message, Method, Operand, Primary, Statement};
use st_tree::units::{Definition, Unit, UnitKind};
use std::alloc::Global;

// Numbers a name, unless it has a number.
fn spell(names: &mut Names, text: &[u8]) -> Result<(), OutOfMemory>
    ensures { OnOk result (names.new ≡ insert_key bytes_eq names.old text.now) }
{
    if names.len() == u32::MAX {
        return Err(OutOfMemory);
    }
    names.intern(text)?;
    Ok(())
}

// Numbers the symbols of a literal. It recurses as deep as the literal nests.
fn spell_literal(names: &mut Names, literal: &Literal) -> Result<(), OutOfMemory>
    ensures { OnOk result (names.new ≡ spelled names.old (literal_texts (named_literal literal.now))) }
{
    match literal {
        Literal::Symbol(text) => spell(names, text.as_bytes()),
        Literal::Array(items) => {
            for item in items.as_slice() {
                spell_literal(names, item)?;
            }
            Ok(())
        }
        Literal::Nil => Ok(()),
        Literal::True => Ok(()),
        Literal::False => Ok(()),
        Literal::Integer(_) => Ok(()),
        Literal::Character(_) => Ok(()),
        Literal::Str(_) => Ok(()),
    }
}

#[cycle(spell)]
fn spell_operands(names: &mut Names, operands: &Items<Operand>) -> Result<(), OutOfMemory>
    ensures { OnOk result (names.new ≡ spelled names.old (operands_texts (named_operands operands.now))) }
{
    for operand in operands.as_slice() {
        spell_operand(names, operand)?;
    }
    Ok(())
}

#[cycle(spell)]
fn spell_messages(names: &mut Names, messages: &Items<Message>) -> Result<(), OutOfMemory>
    ensures { OnOk result (names.new ≡ spelled names.old (messages_texts (named_messages messages.now))) }
{
    for message in messages.as_slice() {
        spell_message(names, message)?;
    }
    Ok(())
}

#[cycle(spell)]
fn spell_statements(names: &mut Names, statements: &Items<Statement>) -> Result<(), OutOfMemory>
    ensures { OnOk result (names.new ≡ spelled names.old (statements_texts (named_statements statements.now))) }
{
    for statement in statements.as_slice() {
        spell_statement(names, statement)?;
    }
    Ok(())
}

#[cycle(spell)]
fn spell_primary(names: &mut Names, primary: &Primary) -> Result<(), OutOfMemory>
    ensures { OnOk result (names.new ≡ spelled names.old (primary_texts (named_primary primary.now))) }
{
    match primary {
        Primary::Variable(_) => Ok(()),
        Primary::SelfValue => Ok(()),
        Primary::SuperValue => Ok(()),
        Primary::Literal(literal) => spell_literal(names, literal),
        Primary::Block(block) => spell_block(names, block),
        Primary::Paren(expr) => spell_expr(names, expr.get()),
    }
}

#[cycle(spell)]
fn spell_block(names: &mut Names, block: &Block) -> Result<(), OutOfMemory>
    ensures { OnOk result (names.new ≡ spelled names.old (statements_texts (named_block block.now).body.statements)) }
{
    spell_body(names, &block.body)
}

#[cycle(spell)]
fn spell_message(names: &mut Names, message: &Message) -> Result<(), OutOfMemory>
    ensures { OnOk result (names.new ≡ spelled names.old (message_texts (named_message message.now))) }
{
    spell(names, message.selector.as_bytes())?;
    spell_operands(names, &message.arguments)
}

#[cycle(spell)]
fn spell_operand(names: &mut Names, operand: &Operand) -> Result<(), OutOfMemory>
    ensures { OnOk result (names.new ≡ spelled names.old (operand_texts (named_operand operand.now))) }
{
    spell_primary(names, &operand.primary)?;
    spell_messages(names, &operand.chain)
}

#[cycle(spell)]
fn spell_expr(names: &mut Names, expr: &Expr) -> Result<(), OutOfMemory>
    ensures { OnOk result (names.new ≡ spelled names.old (expr_texts (named_expr expr.now))) }
{
    spell_operand(names, &expr.operand)?;
    spell_messages(names, &expr.cascade)
}

#[cycle(spell)]
fn spell_statement(names: &mut Names, statement: &Statement) -> Result<(), OutOfMemory>
    ensures { OnOk result (names.new ≡ spelled names.old (expr_texts (named_statement statement.now).expr)) }
{
    match statement {
        Statement::Value(expr) => spell_expr(names, expr),
        Statement::Return(expr) => spell_expr(names, expr),
    }
}

/// Each selector and symbol that a body spells has a number, in the order of the text.
#[cycle(spell)]
pub fn spell_body(names: &mut Names, body: &Body) -> Result<(), OutOfMemory>
    ensures { OnOk result (names.new ≡ spelled names.old (statements_texts (named_body body.now).statements)) }
{
    spell_statements(names, &body.statements)
}

fn spell_method(names: &mut Names, method: &Method) -> Result<(), OutOfMemory>
    ensures { OnOk result (names.new ≡ spelled names.old (method_texts (named_method method.now))) }
{
    spell(names, method.selector.as_bytes())?;
    spell_body(names, &method.body)
}

fn spell_unit(names: &mut Names, unit: &Unit) -> Result<(), OutOfMemory>
    ensures { OnOk result (names.new ≡ spelled names.old (kind_texts (named_unit unit.now))) }
{
    match &unit.kind {
        UnitKind::Initializer { body, .. } => spell_body(names, body),
        UnitKind::PoolInitializer { body, .. } => spell_body(names, body),
        UnitKind::ProgramInitializer(body) => spell_body(names, body),
        UnitKind::Method { method, .. } => spell_method(names, method),
        UnitKind::ClassMethod { method, .. } => spell_method(names, method),
        UnitKind::Version(_)
        | UnitKind::Class(_)
        | UnitKind::GlobalVariable(_)
        | UnitKind::GlobalConstant(_)
        | UnitKind::Pool(_)
        | UnitKind::PoolVariable { .. }
        | UnitKind::PoolConstant { .. }
        | UnitKind::Comment(_) => Ok(()),
    }
}

// Numbers the selectors of the built-in messages.
fn spell_built_ins(names: &mut Names) -> Result<(), OutOfMemory>
    ensures { OnOk result (names.new ≡ spelled names.old (map selector_of messages)) }
{
    for message in built_in_messages() {
        spell(names, message.selector().as_bytes())?;
    }
    Ok(())
}

/// The selectors and symbols of a program, by number.
pub(crate) fn names_of(alloc: Global, units: &[Unit]) -> Result<Names, OutOfMemory>
    ensures { IfOk result (λ names. names ≡ names_in (named_units units.now)) }
{
    let mut names = Names::new(alloc);
    spell_built_ins(&mut names)?;
    for unit in units {
        spell_unit(&mut names, unit)?;
    }
    Ok(names)
}
