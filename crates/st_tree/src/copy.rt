// Deep copies of methods and bodies, places included.
ghost use Rattle.std.specs.Prelude.{◌≡◌, IfOk};

use crate::tree::{Block, Body, Expr, Literal, Message, Method, Name, Operand, Primary, Statement};
use sqlite_items::{Boxed, Items};
use st_base::{OutOfMemory, Text};
use std::alloc::Global;

impl Name {
    /// An equal name, its place included.
    pub fn copy(&self) -> Result<Name, OutOfMemory>
        ensures { IfOk result (λ n. n ≡ self.now) }
    {
        Ok(Name {
            text: self.text.copy()?,
            at: self.at,
        })
    }
}

fn copy_names(alloc: Global, names: &Items<Name>) -> Result<Items<Name>, OutOfMemory>
    ensures { IfOk result (λ ns. ns ≡ names.now) }
{
    let mut all = Items::new(alloc);
    for name in names.as_slice() {
        all.push(name.copy()?)?;
    }
    Ok(all)
}

/// Equal texts in the same order.
pub(crate) fn copy_texts(alloc: Global, texts: &Items<Text>) -> Result<Items<Text>, OutOfMemory>
    ensures { IfOk result (λ ts. ts ≡ texts.now) }
{
    let mut all = Items::new(alloc);
    for text in texts.as_slice() {
        all.push(text.copy()?)?;
    }
    Ok(all)
}

impl Literal {
    /// An equal literal.
    pub fn copy(&self, alloc: Global) -> Result<Literal, OutOfMemory>
        ensures { IfOk result (λ l. l ≡ self.now) }
    {
        match self {
            Literal::Nil => Ok(Literal::Nil),
            Literal::True => Ok(Literal::True),
            Literal::False => Ok(Literal::False),
            Literal::Integer(value) => Ok(Literal::Integer(*value)),
            Literal::Character(byte) => Ok(Literal::Character(*byte)),
            Literal::Str(text) => Ok(Literal::Str(text.copy()?)),
            Literal::Symbol(text) => Ok(Literal::Symbol(text.copy()?)),
            Literal::Array(items) => {
                let mut all = Items::new(alloc);
                for item in items.as_slice() {
                    all.push(item.copy(alloc)?)?;
                }
                Ok(Literal::Array(all))
            }
        }
    }
}

#[cycle(copy)]
fn copy_operands(alloc: Global, operands: &Items<Operand>) -> Result<Items<Operand>, OutOfMemory>
    ensures { IfOk result (λ xs. xs ≡ operands.now) }
{
    let mut all = Items::new(alloc);
    for operand in operands.as_slice() {
        all.push(operand.copy(alloc)?)?;
    }
    Ok(all)
}

#[cycle(copy)]
fn copy_messages(alloc: Global, messages: &Items<Message>) -> Result<Items<Message>, OutOfMemory>
    ensures { IfOk result (λ xs. xs ≡ messages.now) }
{
    let mut all = Items::new(alloc);
    for message in messages.as_slice() {
        all.push(message.copy(alloc)?)?;
    }
    Ok(all)
}

#[cycle(copy)]
fn copy_statements(
    alloc: Global,
    statements: &Items<Statement>,
) -> Result<Items<Statement>, OutOfMemory>
    ensures { IfOk result (λ xs. xs ≡ statements.now) }
{
    let mut all = Items::new(alloc);
    for statement in statements.as_slice() {
        all.push(statement.copy(alloc)?)?;
    }
    Ok(all)
}

impl Primary {
    /// An equal primary, places included. It recurses as deep as the primary nests.
    #[cycle(copy)]
    pub fn copy(&self, alloc: Global) -> Result<Primary, OutOfMemory>
        ensures { IfOk result (λ p. p ≡ self.now) }
    {
        match self {
            Primary::Variable(name) => Ok(Primary::Variable(name.copy()?)),
            Primary::SelfValue => Ok(Primary::SelfValue),
            Primary::SuperValue => Ok(Primary::SuperValue),
            Primary::Literal(literal) => Ok(Primary::Literal(literal.copy(alloc)?)),
            Primary::Block(block) => Ok(Primary::Block(block.copy(alloc)?)),
            Primary::Paren(expr) => Ok(Primary::Paren(Boxed::new(alloc, expr.get().copy(alloc)?)?)),
        }
    }
}

impl Message {
    /// An equal message, places included.
    #[cycle(copy)]
    pub fn copy(&self, alloc: Global) -> Result<Message, OutOfMemory>
        ensures { IfOk result (λ m. m ≡ self.now) }
    {
        Ok(Message {
            selector: self.selector.copy()?,
            at: self.at,
            arguments: copy_operands(alloc, &self.arguments)?,
        })
    }
}

impl Operand {
    /// An equal operand, places included.
    #[cycle(copy)]
    pub fn copy(&self, alloc: Global) -> Result<Operand, OutOfMemory>
        ensures { IfOk result (λ o. o ≡ self.now) }
    {
        Ok(Operand {
            primary: self.primary.copy(alloc)?,
            chain: copy_messages(alloc, &self.chain)?,
        })
    }
}

impl Expr {
    /// An equal expression, places included.
    #[cycle(copy)]
    pub fn copy(&self, alloc: Global) -> Result<Expr, OutOfMemory>
        ensures { IfOk result (λ e. e ≡ self.now) }
    {
        Ok(Expr {
            targets: copy_names(alloc, &self.targets)?,
            operand: self.operand.copy(alloc)?,
            cascade: copy_messages(alloc, &self.cascade)?,
        })
    }
}

impl Statement {
    /// An equal statement, places included.
    #[cycle(copy)]
    pub fn copy(&self, alloc: Global) -> Result<Statement, OutOfMemory>
        ensures { IfOk result (λ s. s ≡ self.now) }
    {
        match self {
            Statement::Value(expr) => Ok(Statement::Value(expr.copy(alloc)?)),
            Statement::Return(expr) => Ok(Statement::Return(expr.copy(alloc)?)),
        }
    }
}

impl Body {
    /// An equal body, places included.
    #[cycle(copy)]
    pub fn copy(&self, alloc: Global) -> Result<Body, OutOfMemory>
        ensures { IfOk result (λ b. b ≡ self.now) }
    {
        Ok(Body {
            temporaries: copy_names(alloc, &self.temporaries)?,
            statements: copy_statements(alloc, &self.statements)?,
        })
    }
}

impl Block {
    /// An equal block, places included.
    #[cycle(copy)]
    pub fn copy(&self, alloc: Global) -> Result<Block, OutOfMemory>
        ensures { IfOk result (λ b. b ≡ self.now) }
    {
        Ok(Block {
            at: self.at,
            parameters: copy_names(alloc, &self.parameters)?,
            body: self.body.copy(alloc)?,
        })
    }
}

impl Method {
    /// An equal method, places included.
    pub fn copy(&self, alloc: Global) -> Result<Method, OutOfMemory>
        ensures { IfOk result (λ m. m ≡ self.now) }
    {
        Ok(Method {
            selector: self.selector.copy()?,
            parameters: copy_names(alloc, &self.parameters)?,
            body: self.body.copy(alloc)?,
        })
    }
}
