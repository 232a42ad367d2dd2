// The walk over the tree of a body, which makes its code (ANSI NCITS 319, 3.4).
ghost use Rattle.std.specs.Prelude.{◌≡◌, ◌==◌, ◌&&◌, not, map, IfOk, OnOk};
ghost use Rattle.st_code.specs.Resolved.{literal_made, is_one_sent, without};
ghost use Rattle.st_code.specs.Compiled.{constant_value};
ghost use Rattle.st_code.specs.Written.{named_literal, name_text, named_primary, named_statement, named_block, named_body, named_expr, named_message, named_operand, named_messages, named_statements};
ghost use Rattle.st_compiler.specs.Around.{variables_of};
ghost use Rattle.st_compiler.specs.Walked as walked;

use crate::around::Around;
use crate::draft::{Draft, Header, Status, narrow, send_of, status_after};
use crate::names::Mentions;
use crate::scope::Scope;
use crate::step::Step;
use st_base::OutOfMemory;
use st_code::{CodeKind, Constant};
use st_tree::tree::{Block, Body, Expr, Literal, Message, Name, Operand, Primary, Statement};

// How many objects a literal is. It recurses as deep as the literal nests.
fn objects_in(literal: &Literal) -> Result<u32, OutOfMemory>
    ensures { IfOk result (λ n. n ≡ walked.objects_in (named_literal literal.now)) }
{
    match literal {
        Literal::Str(_) => Ok(1),
        Literal::Array(items) => {
            let mut count = 1;
            for item in items.as_slice() {
                let more = objects_in(item)?;
                if more > u32::MAX - count {
                    return Err(OutOfMemory);
                }
                count += more;
            }
            Ok(count)
        }
        Literal::Nil => Ok(0),
        Literal::True => Ok(0),
        Literal::False => Ok(0),
        Literal::Integer(_) => Ok(0),
        Literal::Character(_) => Ok(0),
        Literal::Symbol(_) => Ok(0),
    }
}

// What a literal is, where its first object has this number.
fn constant_of(around: &Around<'_, '_>, object: u32, literal: &Literal) -> Constant
    ensures { constant_value result ≡ (literal_made around.now.names.names object (named_literal literal.now)).item }
{
    match literal {
        Literal::Nil => Constant::Nil,
        Literal::True => Constant::True,
        Literal::False => Constant::False,
        Literal::Integer(number) => Constant::Integer(*number),
        Literal::Character(byte) => Constant::Character(*byte),
        Literal::Str(_) => Constant::Object(object),
        Literal::Symbol(text) => Constant::Symbol(around.number(text.as_bytes())),
        Literal::Array(_) => Constant::Object(object),
    }
}

fn is_super(primary: &Primary) -> bool
    ensures { result ≡ walked.is_super (named_primary primary.now) }
{
    match primary {
        Primary::SuperValue => true,
        Primary::Variable(_) => false,
        Primary::SelfValue => false,
        Primary::Literal(_) => false,
        Primary::Block(_) => false,
        Primary::Paren(_) => false,
    }
}

// Whether the messages of a cascade behind the operand go to `super`.
fn is_direct(operand: &Operand) -> bool
    ensures { result ≡ walked.is_direct (named_operand operand.now) }
{
    is_super(&operand.primary) && operand.chain.len() <= 1
}

fn has_messages(messages: &[Message]) -> bool
    ensures { result ≡ not (is_one_sent (named_messages messages.now)) }
{
    messages.first().is_some()
}

// Whether a cascade follows the last message.
fn is_last(kept: bool, left: usize) -> bool
    ensures { result ≡ (kept && (left == 0)) }
{
    if kept { left == 0 } else { false }
}

// Whether messages of a cascade are left.
fn are_left(left: usize) -> bool
    ensures { result ≡ not (left == 0) }
{
    left > 0
}

fn is_return(statement: &Statement) -> bool
    ensures { result ≡ (named_statement statement.now).returns }
{
    match statement {
        Statement::Value(_) => false,
        Statement::Return(_) => true,
    }
}

impl<'a> Draft<'a> {
    fn literal(&mut self, around: &Around<'a, '_>, literal: &Literal) -> Result<(), OutOfMemory>
        ensures { OnOk result (self.new ≡ walked.literal_walked around.now.names.names (named_literal literal.now) self.old) }
    {
        self.push(Step::PushConstant(constant_of(around, self.objects, literal)))?;
        self.count_objects(objects_in(literal)?)
    }

    // The message in place of one where a cascade follows an operand without messages.
    fn end_chain(
        &mut self,
        to_super: bool,
        kept: bool,
        chain: &[Message],
    ) -> Result<(), OutOfMemory>
        ensures { OnOk result (self.new ≡ walked.chain_ended to_super kept (named_messages chain.now) self.old) }
    {
        if !kept {
            return Ok(());
        }
        if !chain.is_empty() {
            return Ok(());
        }
        self.push(Step::Dup)?;
        self.push(send_of(to_super, 0, 0))?;
        self.push(Step::Pop)
    }

    #[cycle(walk)]
    fn primary(&mut self, around: &Around<'a, '_>, primary: &'a Primary) -> Result<(), OutOfMemory>
        ensures { OnOk result (self.new ≡ walked.primary_walked around.now (named_primary primary.now) self.old) }
    {
        match primary {
            Primary::Variable(name) => self.name(around, name),
            Primary::SelfValue => self.push(Step::PushSelf),
            Primary::SuperValue => self.push(Step::PushSelf),
            Primary::Literal(literal) => self.literal(around, literal),
            Primary::Block(block) => self.block(around, block),
            Primary::Paren(expr) => self.expr(around, expr.get()),
        }
    }

    #[cycle(walk)]
    fn block(&mut self, around: &Around<'a, '_>, block: &'a Block) -> Result<(), OutOfMemory>
        ensures { OnOk result (self.new ≡ walked.block_walked around.now (named_block block.now) self.old) }
    {
        let code = narrow(self.bodies.len())?;
        let parameters = block.parameters.as_slice();
        let outer = Some(around.code());
        let names = self.body(around, CodeKind::Block, outer, parameters, &block.body)?;
        self.make_block(code, &names)
    }

    /// A body, with the parameters that stand before it. The names are those that it leaves to the
    /// body around it.
    #[cycle(walk)]
    pub(crate) fn body(
        &mut self,
        around: &Around<'a, '_>,
        kind: CodeKind,
        outer: Option<u32>,
        parameters: &'a [Name],
        body: &'a Body,
    ) -> Result<Mentions<'a>, OutOfMemory>
        ensures names { IfOk result (λ m. m ≡ walked.body_names kind around.now outer (map name_text parameters.now) (named_body body.now).temporaries (named_body body.now).statements self.old) }
        ensures made { OnOk result (self.new ≡ walked.body_made_of kind around.now outer (map name_text parameters.now) (named_body body.now).temporaries (named_body body.now).statements self.old) }
    {
        let code = narrow(self.bodies.len())?;
        let temporaries = body.temporaries.as_slice();
        let scope = Scope::new(self.alloc, parameters, temporaries)?;
        let within = around.inside(self.alloc, code, &scope)?;
        let header = Header {
            kind,
            class: around.class(),
            parameters: parameters.len(),
            outer,
        };
        let statements = body.statements.as_slice();
        self.body_within(&within, &scope, header, parameters, temporaries, statements)
    }

    // A body from its begin to its end, where its scope is the innermost. The names are the same.
    #[cycle(walk)]
    fn body_within(
        &mut self,
        within: &Around<'a, '_>,
        scope: &Scope<'a>,
        header: Header,
        parameters: &[Name],
        temporaries: &[Name],
        statements: &'a [Statement],
    ) -> Result<Mentions<'a>, OutOfMemory>
        ensures names { IfOk result (λ m. m ≡ without (walked.statements_walked within.now header.kind Status.Empty (named_statements statements.now) (walked.body_begun header self.old)).frame.all scope.now) }
        ensures made { OnOk result (self.new ≡ walked.body_ended within.now.code header (variables_of parameters.now temporaries.now) self.old.frame (walked.statements_walked within.now header.kind Status.Empty (named_statements statements.now) (walked.body_begun header self.old))) }
    {
        let frame = self.begin(header)?;
        self.statements(within, header.kind, statements)?;
        self.finish(scope, within.code(), header, parameters, temporaries, frame)
    }

    #[cycle(walk)]
    fn operand(
        &mut self,
        around: &Around<'a, '_>,
        kept: bool,
        operand: &'a Operand,
    ) -> Result<(), OutOfMemory>
        ensures { OnOk result (self.new ≡ walked.operand_walked around.now kept (named_operand operand.now) self.old) }
    {
        self.primary(around, &operand.primary)?;
        let to_super = is_super(&operand.primary);
        self.chain(around, to_super, kept, operand.chain.as_slice())?;
        self.end_chain(to_super, kept, operand.chain.as_slice())
    }

    #[cycle(walk)]
    fn chain(
        &mut self,
        around: &Around<'a, '_>,
        to_super: bool,
        kept: bool,
        chain: &'a [Message],
    ) -> Result<(), OutOfMemory>
        ensures { OnOk result (self.new ≡ walked.chain_walked around.now to_super kept (named_messages chain.now) self.old) }
    {
        let mut direct = to_super;
        let mut left = chain.len();
        for message in chain {
            left -= 1;
            self.message(around, direct, is_last(kept, left), message)?;
            direct = false;
        }
        Ok(())
    }

    #[cycle(walk)]
    fn cascade(
        &mut self,
        around: &Around<'a, '_>,
        to_super: bool,
        cascade: &'a [Message],
    ) -> Result<(), OutOfMemory>
        ensures { OnOk result (self.new ≡ walked.cascade_walked around.now to_super (named_messages cascade.now) self.old) }
    {
        let mut left = cascade.len();
        for message in cascade {
            left -= 1;
            self.message(around, to_super, are_left(left), message)?;
        }
        Ok(())
    }

    #[cycle(walk)]
    fn message(
        &mut self,
        around: &Around<'a, '_>,
        to_super: bool,
        kept: bool,
        message: &'a Message,
    ) -> Result<(), OutOfMemory>
        ensures { OnOk result (self.new ≡ walked.message_walked around.now to_super kept (named_message message.now) self.old) }
    {
        self.dup_if(kept)?;
        for argument in message.arguments.as_slice() {
            self.operand(around, false, argument)?;
        }
        let selector = around.number(message.selector.as_bytes());
        self.push(send_of(to_super, selector, message.arguments.len()))?;
        self.pop_if(kept)
    }

    #[cycle(walk)]
    fn expr(&mut self, around: &Around<'a, '_>, expr: &'a Expr) -> Result<(), OutOfMemory>
        ensures { OnOk result (self.new ≡ walked.expr_walked around.now (named_expr expr.now) self.old) }
    {
        self.mention_all(expr.targets.as_slice())?;
        self.operand(around, has_messages(expr.cascade.as_slice()), &expr.operand)?;
        self.cascade(around, is_direct(&expr.operand), expr.cascade.as_slice())?;
        self.store_all(around, expr.targets.as_slice())
    }

    #[cycle(walk)]
    fn statement(
        &mut self,
        around: &Around<'a, '_>,
        kind: CodeKind,
        status: Status,
        statement: &'a Statement,
    ) -> Result<(), OutOfMemory>
        ensures { OnOk result (self.new ≡ walked.statement_walked around.now kind status (named_statement statement.now) self.old) }
    {
        let aside = self.separate(status)?;
        match statement {
            Statement::Value(expr) => {
                self.expr(around, expr)?;
                self.end_statement(kind, status, false, aside)
            }
            Statement::Return(expr) => {
                self.expr(around, expr)?;
                self.end_statement(kind, status, true, aside)
            }
        }
    }

    #[cycle(walk)]
    fn statements(
        &mut self,
        around: &Around<'a, '_>,
        kind: CodeKind,
        statements: &'a [Statement],
    ) -> Result<(), OutOfMemory>
        ensures { OnOk result (self.new ≡ walked.statements_walked around.now kind Status.Empty (named_statements statements.now) self.old) }
    {
        let mut status = Status::Empty;
        for statement in statements {
            self.statement(around, kind, status, statement)?;
            status = status_after(status, is_return(statement));
        }
        self.end_statements(kind, status)
    }
}
