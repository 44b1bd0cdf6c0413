//! The grammar of sentences, read from left to right.

ghost use Rattle.std.specs.Prelude.{◌≡◌, ◌<◌, ◌≤◌, ◌^◌, [], length, true, OnOk, IfOk, Ok, Err};
ghost use Rattle.cqe_base.specs.Formula.{Formula, formula_of, is_sentence_of, universal};
ghost use Rattle.cqe_base.specs.Formula.{existential, equality, inequality};
ghost use Rattle.cqe_base.specs.Grammar.{IsSentence};
ghost use Rattle.cqe_base.specs.Reading;
ghost use Rattle.cqe_base.specs.Reading.{reading};
ghost use Rattle.cqe_base.specs.Refusals.{Refused};
ghost use Rattle.sentence_text.specs.Binders.{binders, typed_term};
ghost use Rattle.sentence_text.specs.Upcoming.{token_of};
ghost use Rattle.sentence_text.specs.Position.{IsSameText, Passes, Reads, Gives, IfRefused};
ghost use Rattle.sentence_text.specs.Position.{sign_of, quantifier_of};

use crate::error::{BAD_CHARACTER, ReadError, TOO_DEEP, UNKNOWN_NAME, WRONG_COLUMNS, WRONG_DOMAIN};
use crate::lexer::symbol_of;
use crate::names::columns;
use crate::reader::{Reader, refused, unexpected};
use crate::scope::{Scope, TypedTerm};
use crate::token::Token;
use cqe_base::laws::{law_reading, law_refusals};
use cqe_base::schema::Schema;
use cqe_base::sentence::{Sentence, Term, Terms};
use cqe_base::text::Symbol;
use std::alloc::Global;

impl Reader<'_> {
    /// No token is left, and no byte that begins none.
    #[tactic(auto, unfolding(cqe_base::specs::Reading::at_end))]
    fn end(&self) -> Result<(), ReadError>
        ensures { Passes result self.now.tokens
            (Reading.at_end self.now.schema self.now.refusal self.now.tokens) }
    {
        let refusal = self.unexpected();
        if self.peek().is_some() || refusal.kind == BAD_CHARACTER {
            return Err(ReadError::Text(refusal));
        }
        Ok(())
    }

    /// What a term's name stands for: a variable, else a constant.
    fn term_named(&self, scope: &Scope<'_>, token: Token<'_>) -> Result<TypedTerm, ReadError>
        requires { length (binders scope.now) ≤ 8 }
        ensures { Gives typed_term result (Reading.looked_up (token_of token.entry)
            (Reading.term_named self.now.schema (binders scope.now) token.entry.text.now)) }
    {
        if let Some(variable) = scope.variable(token.text) {
            return Ok(variable);
        }
        match self.schema().find_constant(token.text) {
            Some(constant) => Ok(TypedTerm {
                term: Term::Constant(constant),
                domain: constant.domain,
            }),
            None => Err(refused(UNKNOWN_NAME, token)),
        }
    }

    /// A term of a domain.
    #[tactic(auto, unfolding(cqe_base::specs::Reading::term_of))]
    fn term(&mut self, scope: &Scope<'_>, domain: u32) -> Result<Term, ReadError>
        requires { length (binders scope.now) ≤ 8 }
        ensures read { Reads (λ a. a) result self.new.tokens
            (Reading.term_of self.old.schema self.old.refusal
            (binders scope.now) domain self.old.tokens) }
        ensures same { IsSameText self.old self.new }
        ensures shorter { OnOk result (length self.new.tokens < length self.old.tokens) }
    {
        let token = self.name()?;
        let typed = self.term_named(scope, token)?;
        if typed.domain != domain {
            return Err(refused(WRONG_DOMAIN, token));
        }
        Ok(typed.term)
    }

    /// Passes what stands behind a column: a `)` behind the last one, a `,` behind each other one.
    #[tactic(auto, unfolding(cqe_base::specs::Reading::after_column))]
    fn end_column(&mut self, last: bool) -> Result<(), ReadError>
        ensures read { Passes result self.new.tokens
            (Reading.after_column self.old.schema self.old.refusal last self.old.tokens) }
        ensures same { IsSameText self.old self.new }
        ensures shorter { OnOk result (length self.new.tokens < length self.old.tokens) }
    {
        let token = self.token()?;
        let (wanted, other) = if last {
            (Symbol::Close, Symbol::Comma)
        } else {
            (Symbol::Comma, Symbol::Close)
        };
        let symbol = symbol_of(token.text);
        if symbol == wanted {
            Ok(())
        } else if symbol == other {
            Err(refused(WRONG_COLUMNS, token))
        } else {
            Err(unexpected(token))
        }
    }

    /// The terms of the columns, and the `)` behind the last one.
    fn columns(&mut self, scope: &Scope<'_>, domains: &[u32]) -> Result<Terms, ReadError>
        requires depth { length (binders scope.now) ≤ 8 }
        requires few { length domains.now ≤ 6 }
        ensures read { Reads (λ terms. terms) result self.new.tokens
            (Reading.columns self.old.schema self.old.refusal
            (binders scope.now) domains.now self.old.tokens) }
        ensures same { IsSameText self.old self.new }
        ensures no_longer { OnOk result (length self.new.tokens ≤ length self.old.tokens) }
    {
        let mut terms = Vec::new(self.alloc());
        for (i, domain) in domains.iter().enumerate() {
            let term = self.term(scope, *domain)?;
            self.end_column(i + 1 == domains.len())?;
            terms.push(term)?;
        }
        Ok(Terms::from_vec(terms))
    }

    /// The `)` of an atom without columns.
    #[tactic(auto, unfolding(cqe_base::specs::Reading::no_columns))]
    fn no_columns(&mut self) -> Result<Terms, ReadError>
        ensures read { Reads (λ terms. terms) result self.new.tokens
            (Reading.no_columns self.old.schema self.old.refusal self.old.tokens) }
        ensures same { IsSameText self.old self.new }
        ensures no_longer { OnOk result (length self.new.tokens ≤ length self.old.tokens) }
    {
        let token = self.token()?;
        match symbol_of(token.text) {
            Symbol::Close => Ok(Terms::from_vec(Vec::new(self.alloc()))),
            Symbol::Name => Err(refused(WRONG_COLUMNS, token)),
            _ => Err(unexpected(token)),
        }
    }

    /// What stands behind the `(` of an atom.
    #[tactic(auto, unfolding(cqe_base::specs::Reading::arguments, cqe_base::specs::Reading::some_columns))]
    fn arguments(&mut self, scope: &Scope<'_>, domains: &[u32]) -> Result<Terms, ReadError>
        requires depth { length (binders scope.now) ≤ 8 }
        requires few { length domains.now ≤ 6 }
        ensures read { Reads (λ terms. terms) result self.new.tokens
            (Reading.arguments self.old.schema self.old.refusal
            (binders scope.now) domains.now self.old.tokens) }
        ensures same { IsSameText self.old self.new }
        ensures no_longer { OnOk result (length self.new.tokens ≤ length self.old.tokens) }
    {
        if domains.is_empty() {
            return self.no_columns();
        }
        match self.peek() {
            Some(token) if symbol_of(token.text) == Symbol::Close => Err(refused(
                WRONG_COLUMNS,
                token,
            )),
            Some(_) => self.columns(scope, domains),
            None => Err(ReadError::Text(self.unexpected())),
        }
    }

    /// An atom, behind its relation's name.
    #[tactic(auto, unfolding(cqe_base::specs::Reading::relation_atom))]
    fn relation_atom(&mut self, scope: &Scope<'_>, token: Token<'_>) -> Result<Sentence, ReadError>
        requires depth { length (binders scope.now) ≤ 8 }
        requires open { 0 < length self.old.tokens }
        ensures read { Reads formula_of result self.new.tokens
            (Reading.relation_atom self.old.schema self.old.refusal (binders scope.now)
            (token_of token.entry) self.old.tokens) }
        ensures same { IsSameText self.old self.new }
        ensures no_longer { OnOk result (length self.new.tokens ≤ length self.old.tokens) }
    {
        let schema = self.schema();
        match schema.find_relation(token.text) {
            Some(relation) => {
                self.advance();
                let terms = self.arguments(scope, columns(schema, relation))?;
                Ok(Sentence::Atom(relation, terms))
            }
            None => Err(refused(UNKNOWN_NAME, token)),
        }
    }

    /// `=` or `!=`, and whether it is `=`.
    #[tactic(auto, unfolding(cqe_base::specs::Reading::comparison_sign))]
    fn comparison_sign(&mut self) -> Result<bool, ReadError>
        ensures read { Reads sign_of result self.new.tokens
            (Reading.comparison_sign self.old.schema self.old.refusal self.old.tokens) }
        ensures same { IsSameText self.old self.new }
        ensures no_longer { OnOk result (length self.new.tokens ≤ length self.old.tokens) }
    {
        let token = self.token()?;
        match symbol_of(token.text) {
            Symbol::Equal => Ok(true),
            Symbol::Differs => Ok(false),
            _ => Err(unexpected(token)),
        }
    }

    /// Two terms of one domain, behind the first one's name.
    #[tactic(auto, unfolding(cqe_base::specs::Reading::comparison))]
    fn comparison(&mut self, scope: &Scope<'_>, token: Token<'_>) -> Result<Sentence, ReadError>
        requires { length (binders scope.now) ≤ 8 }
        ensures read { Reads formula_of result self.new.tokens
            (Reading.comparison self.old.schema self.old.refusal (binders scope.now)
            (token_of token.entry) self.old.tokens) }
        ensures same { IsSameText self.old self.new }
        ensures no_longer { OnOk result (length self.new.tokens ≤ length self.old.tokens) }
    {
        let left = self.term_named(scope, token)?;
        let equal = self.comparison_sign()?;
        let right = self.term(scope, left.domain)?;
        if equal {
            Ok(Sentence::Equal(left.term, right))
        } else {
            Ok(Sentence::Differs(left.term, right))
        }
    }

    /// A name that is followed by `(` is a relation, any other one is a term.
    #[tactic(auto, unfolding(cqe_base::specs::Reading::named))]
    fn named(&mut self, scope: &Scope<'_>, token: Token<'_>) -> Result<Sentence, ReadError>
        requires { length (binders scope.now) ≤ 8 }
        ensures read { Reads formula_of result self.new.tokens
            (Reading.named self.old.schema self.old.refusal (binders scope.now)
            (token_of token.entry) self.old.tokens) }
        ensures same { IsSameText self.old self.new }
        ensures no_longer { OnOk result (length self.new.tokens ≤ length self.old.tokens) }
    {
        if self.is_next(Symbol::Open) {
            self.relation_atom(scope, token)
        } else {
            self.comparison(scope, token)
        }
    }

    /// How many constructs may be opened inside the one that a token opens.
    #[tactic(auto, unfolding(cqe_base::specs::Reading::inside))]
    fn enter(&self, room: u32, token: Token<'_>) -> Result<u32, ReadError>
        ensures value { Gives
            (λ inner. Reading.level_with self.now.schema self.now.refusal
            (Reading.inside self.now.schema self.now.refusal inner))
            result (Reading.enter (Reading.inside self.now.schema self.now.refusal room)
            (token_of token.entry)) }
        ensures less { IfOk result (λ inner. inner < room) }
    {
        if room == 0 {
            return Err(refused(TOO_DEEP, token));
        }
        Ok(room - 1)
    }

    /// The number of a domain, by its name.
    #[tactic(auto, unfolding(cqe_base::specs::Reading::domain))]
    fn domain(&mut self) -> Result<u32, ReadError>
        ensures read { Reads (λ d. d) result self.new.tokens
            (Reading.domain self.old.schema self.old.refusal self.old.tokens) }
        ensures same { IsSameText self.old self.new }
        ensures no_longer { OnOk result (length self.new.tokens ≤ length self.old.tokens) }
    {
        let token = self.name()?;
        match self.schema().find_domain(token.text) {
            Some(domain) => Ok(domain),
            None => Err(refused(UNKNOWN_NAME, token)),
        }
    }

    /// A quantified sentence ends only before a `)` or where the tokens end.
    #[tactic(auto, unfolding(cqe_base::specs::Reading::ends_quantified))]
    fn end_quantified(&self) -> Result<(), ReadError>
        ensures { Passes result self.now.tokens
            (Reading.ends_quantified self.now.schema self.now.refusal self.now.tokens) }
    {
        match self.peek() {
            Some(token) if symbol_of(token.text) != Symbol::Close => Err(unexpected(token)),
            _ => Ok(()),
        }
    }

    /// A quantified sentence, behind the token that opens it.
    #[cycle(parser)]
    #[tactic(auto, unfolding(cqe_base::specs::Reading::quantified))]
    fn quantified(
        &mut self,
        universal: bool,
        scope: &Scope<'_>,
        room: u32,
        token: Token<'_>,
    ) -> Result<Sentence, ReadError>
        requires { length (binders scope.now) ≤ 8 }
        ensures read { Reads formula_of result self.new.tokens
            (Reading.quantified self.old.schema self.old.refusal (quantifier_of universal)
            (Reading.inside self.old.schema self.old.refusal room) (binders scope.now)
            (token_of token.entry) self.old.tokens) }
        ensures same { IsSameText self.old self.new }
        ensures no_longer { OnOk result (length self.new.tokens ≤ length self.old.tokens) }
    {
        if scope.depth() == 8 {
            return Err(refused(TOO_DEEP, token));
        }
        let inner = self.enter(room, token)?;
        let variable = self.name()?;
        self.pass(Symbol::Colon)?;
        let domain = self.domain()?;
        self.pass(Symbol::Dot)?;
        let within = Scope::Within {
            variable: variable.text,
            domain,
            outer: scope,
        };
        let body = Box::new(self.alloc(), self.sentence(&within, inner)?)?;
        self.end_quantified()?;
        if universal {
            Ok(Sentence::Forall(domain, body))
        } else {
            Ok(Sentence::Exists(domain, body))
        }
    }

    /// What `not`, `and` and `or` join.
    #[cycle(parser)]
    #[tactic(auto, unfolding(cqe_base::specs::Reading::unary, cqe_base::specs::Reading::unary_by))]
    fn unary(&mut self, scope: &Scope<'_>, room: u32) -> Result<Sentence, ReadError>
        requires { length (binders scope.now) ≤ 8 }
        ensures read { Reads formula_of result self.new.tokens
            (Reading.unary self.old.schema self.old.refusal
            (Reading.inside self.old.schema self.old.refusal room)
            (binders scope.now) self.old.tokens) }
        ensures same { IsSameText self.old self.new }
        ensures shorter { OnOk result (length self.new.tokens < length self.old.tokens) }
    {
        let token = self.token()?;
        match symbol_of(token.text) {
            Symbol::Not => {
                let inner = self.enter(room, token)?;
                let operand = self.unary(scope, inner)?;
                Ok(Sentence::Not(Box::new(self.alloc(), operand)?))
            }
            Symbol::Forall => self.quantified(true, scope, room, token),
            Symbol::Exists => self.quantified(false, scope, room, token),
            Symbol::True => Ok(Sentence::True),
            Symbol::False => Ok(Sentence::False),
            Symbol::Open => {
                let inner = self.enter(room, token)?;
                let sentence = self.sentence(scope, inner)?;
                self.pass(Symbol::Close)?;
                Ok(sentence)
            }
            Symbol::Name => self.named(scope, token),
            _ => Err(unexpected(token)),
        }
    }

    /// Operands that `and` joins.
    #[cycle(parser)]
    #[tactic(auto, unfolding(cqe_base::specs::Reading::both))]
    fn both(&mut self, scope: &Scope<'_>, room: u32) -> Result<Sentence, ReadError>
        requires { length (binders scope.now) ≤ 8 }
        ensures read { Reads formula_of result self.new.tokens
            (Reading.both (Reading.unary self.old.schema self.old.refusal
            (Reading.inside self.old.schema self.old.refusal room) (binders scope.now))
            self.old.tokens) }
        ensures same { IsSameText self.old self.new }
        ensures shorter { OnOk result (length self.new.tokens < length self.old.tokens) }
    {
        let mut left = self.unary(scope, room)?;
        while self.is_next(Symbol::And) {
            self.advance();
            let right = self.unary(scope, room)?;
            left = Sentence::And(
                Box::new(self.alloc(), left)?,
                Box::new(self.alloc(), right)?,
            );
        }
        Ok(left)
    }

    /// Operands that `or` joins.
    #[cycle(parser)]
    #[tactic(auto, unfolding(cqe_base::specs::Reading::either))]
    fn either(&mut self, scope: &Scope<'_>, room: u32) -> Result<Sentence, ReadError>
        requires { length (binders scope.now) ≤ 8 }
        ensures read { Reads formula_of result self.new.tokens
            (Reading.either (Reading.unary self.old.schema self.old.refusal
            (Reading.inside self.old.schema self.old.refusal room) (binders scope.now))
            self.old.tokens) }
        ensures same { IsSameText self.old self.new }
        ensures shorter { OnOk result (length self.new.tokens < length self.old.tokens) }
    {
        let mut left = self.both(scope, room)?;
        while self.is_next(Symbol::Or) {
            self.advance();
            let right = self.both(scope, room)?;
            left = Sentence::Or(
                Box::new(self.alloc(), left)?,
                Box::new(self.alloc(), right)?,
            );
        }
        Ok(left)
    }

    /// What `<->` joins.
    #[cycle(parser)]
    #[tactic(auto, unfolding(cqe_base::specs::Reading::conditional, cqe_base::specs::Reading::implying))]
    fn conditional(&mut self, scope: &Scope<'_>, room: u32) -> Result<Sentence, ReadError>
        requires { length (binders scope.now) ≤ 8 }
        ensures read { Reads formula_of result self.new.tokens
            (Reading.conditional self.old.schema self.old.refusal
            (Reading.inside self.old.schema self.old.refusal room)
            (binders scope.now) self.old.tokens) }
        ensures same { IsSameText self.old self.new }
        ensures shorter { OnOk result (length self.new.tokens < length self.old.tokens) }
    {
        let left = self.either(scope, room)?;
        match self.peek() {
            Some(token) if symbol_of(token.text) == Symbol::Arrow => {
                let inner = self.enter(room, token)?;
                self.advance();
                let right = self.conditional(scope, inner)?;
                Ok(Sentence::Implies(
                    Box::new(self.alloc(), left)?,
                    Box::new(self.alloc(), right)?,
                ))
            }
            _ => Ok(left),
        }
    }

    /// A sentence, up to a token that can't continue it.
    #[cycle(parser)]
    #[tactic(auto, unfolding(cqe_base::specs::Reading::sentence, cqe_base::specs::Reading::equivalent_to))]
    fn sentence(&mut self, scope: &Scope<'_>, room: u32) -> Result<Sentence, ReadError>
        requires { length (binders scope.now) ≤ 8 }
        ensures read { Reads formula_of result self.new.tokens
            (Reading.sentence self.old.schema self.old.refusal
            (Reading.level_with self.old.schema self.old.refusal
            (Reading.inside self.old.schema self.old.refusal room))
            (binders scope.now) self.old.tokens) }
        ensures same { IsSameText self.old self.new }
        ensures shorter { OnOk result (length self.new.tokens < length self.old.tokens) }
    {
        let left = self.conditional(scope, room)?;
        if !self.is_next(Symbol::DoubleArrow) {
            return Ok(left);
        }
        self.advance();
        let right = self.conditional(scope, room)?;
        Ok(Sentence::Iff(
            Box::new(self.alloc(), left)?,
            Box::new(self.alloc(), right)?,
        ))
    }
}

/// Reads a text as a sentence of the schema. A text that is none is refused at the first token that
/// can't stand where it is.
pub fn read_sentence(alloc: Global, schema: &Schema, text: &str) -> Result<Sentence, ReadError>
    requires { length text.now ≤ 4096 }
    // What is read is the sentence that the text is.
    ensures read { IfOk result (λ s. reading schema.now text.now ≡ Ok (formula_of s)) }
    // The grammar derives it, and it is a closed sentence of the schema.
    ensures derived { IfOk result (λ s. IsSentence schema.now text.now (formula_of s)) }
    ensures of_schema { IfOk result (λ s. is_sentence_of schema.now (formula_of s) ≡ true) }
    // A refusal has the kind and the place that the text is refused with, and the table of refusals
    // has it.
    ensures refused { IfRefused result (λ e. reading schema.now text.now ≡ Err e) }
    ensures table { IfRefused result (λ e. Refused schema.now text.now e) }
    // A text that the grammar derives isn't refused.
    ensures complete { (a : Formula) → IsSentence schema.now text.now a
        → IfRefused result (λ e. ⊥) }
{
    law_reading();
    law_refusals();
    read_exactly(alloc, schema, text)
}

/// The same, of which one clause says all.
#[tactic(auto, unfolding(cqe_base::specs::Reading::reading, cqe_base::specs::Reading::sentence_of))]
fn read_exactly(alloc: Global, schema: &Schema, text: &str) -> Result<Sentence, ReadError>
    requires { length text.now ≤ 4096 }
    ensures { Gives formula_of result (reading schema.now text.now) }
{
    let mut reader = Reader::new(alloc, schema, text);
    let sentence = reader.sentence(&Scope::Outermost, 64)?;
    reader.end()?;
    Ok(sentence)
}
