//! What the lines of a script have said so far.

ghost use Rattle.std.specs.Prelude.{◌≡◌, ◌≤◌, ◌++◌, ◌∷◌, [], map, length, true, false, ◌&&◌};
ghost use Rattle.std.specs.Prelude.{nat_le, nat_lt, Ok, Err, None, IfOk, IfErr, OnOk, string_bytes};
ghost use Rattle.cqe_base.specs.Memory.{declaration_of};
ghost use Rattle.cqe_base.specs.Formula.{formula_of, is_sentence_of};
ghost use Rattle.cqe_base.specs.Reading.{reading};
ghost use Rattle.cqe_base.specs.FactText.{stated_fact};
ghost use Rattle.cqe_base.specs.Schema.{schema_refusal, schema_of};
ghost use Rattle.case_engine.specs.Sound.{IsSound, IsSound-prop};
ghost use Rattle.case_engine.specs.Scripts.{script_in};
ghost use Rattle.case_engine.specs.SchemaRefusal.{IsSchemaRefusal};

use crate::declaration::Declared;
use crate::parts::Parts;
use crate::statement::{Statement, statement_of};
use cqe_base::laws::{law_pairs, law_secrets_made, law_views_without_entries};
use cqe_base::schema::{Schema, SchemaError};
use cqe_base::sentence::{Sentence, nodes};
use cqe_base::text::ScriptKind;
use cqe_base::user::{Method, User, with_secrecies};
use cqe_base::world::{World, WorldError};
use script_lines::LineError;
use sentence_text::{ReadError, read_sentence, stated_fact};
use std::alloc::{AllocError, Global};

/// A user knows at most so many sentences beforehand.
const KNOWN: usize = 256;

/// A user has at most so many secrets.
const SECRETS: usize = 16;

/// A declared sentence has at most so many nodes.
const SENTENCE_NODES: u64 = 20_000;

/// The view of a user who has asked nothing has at most so many nodes.
const VIEW_NODES: u64 = 40_000;

/// The budget of a user of whom no line says one.
const BUDGET: u64 = 1_000_000;

/// What the lines of a script have said so far.
#[derive(Drop)]
pub struct Script {
    domains: Vec<Declared>,
    relations: Vec<Declared>,
    schema: Schema,
    facts: World,
    method: Option<Method>,
    know: Vec<Sentence>,
    secrecies: Vec<Sentence>,
    secrets: Vec<Sentence>,
    budget: Option<u64>,
    asks: Vec<String>,
    view_nodes: u64,
    ghost sound: { IsSound
        (script_in domains.items relations.items facts method know.items secrecies.items
        secrets.items budget asks.items) schema view_nodes } by { IsSound-prop _ _ _ },
}

impl Script {
    ghost use Rattle.case_engine.specs.Script.{empty_script, with_spoken, with_statement};
    ghost use Rattle.case_engine.specs.Script.{before_asks, declare, with_domain, with_relation};
    ghost use Rattle.case_engine.specs.Script.{with_known, with_secret, choose, allow, ask_next};
    ghost use Rattle.case_engine.specs.Script.{state, say, say_secrecy, script_schema, all_secrets};
    ghost use Rattle.case_engine.specs.SchemaRefusal.{IsNoSentence};
    ghost use Rattle.case_engine.specs.Answering.{ArePartsOf};
    ghost use Rattle.case_engine.specs.Statements.{statement_of};
    ghost use Rattle.case_engine.specs.Said.{said, IsShortStatement};
    ghost use Rattle.case_engine.specs.ScriptsRead.{script_is};
    ghost use Rattle.script_lines.specs.Lines.{Refuses};

    /// No line has said anything.
    pub fn new(alloc: Global) -> Result<Script, LineError>
        ensures { IfOk result (λ script. script_is script ≡ empty_script) }
    {
        law_views_without_entries();
        let schema = new_schema(alloc, Vec::new(alloc), Vec::new(alloc))?;
        Ok(Script {
            domains: Vec::new(alloc),
            relations: Vec::new(alloc),
            schema,
            facts: World::new(alloc),
            method: None,
            know: Vec::new(alloc),
            secrecies: Vec::new(alloc),
            secrets: Vec::new(alloc),
            budget: None,
            asks: Vec::new(alloc),
            view_nodes: 0,
        })
    }

    /// The parts of the script. Its user has the name `case`.
    pub fn into_parts(self, alloc: Global) -> Result<Parts, AllocError>
        ensures { IfOk result (ArePartsOf (script_is self)) }
    {
        law_pairs();
        law_secrets_made();
        let name = String::from_str(alloc, "case")?;
        let Script {
            domains: _domains,
            relations: _relations,
            schema,
            facts,
            method,
            know,
            secrecies,
            secrets,
            budget,
            asks,
            view_nodes: _,
        } = self;
        let user = User {
            name,
            method: method.unwrap_or(Method::Lying),
            know,
            secrets: with_secrecies(alloc, secrecies.as_slice(), secrets)?,
            pairs: secrecies.len() as u32,
            budget: budget.unwrap_or(BUDGET),
            token: None,
        };
        Ok(Parts {
            schema,
            facts,
            user,
            asks,
        })
    }

    /// One more statement. Behind a refusal nobody looks at what was said.
    pub fn say(&mut self, alloc: Global, statement: Statement<'_>) -> Result<(), LineError>
        requires { IsShortStatement statement }
        ensures added { OnOk result (with_statement (script_is self.old) (said statement.entry)
            ≡ Ok (script_is self.new)) }
        ensures refused { IfErr result
            (Refuses (with_statement (script_is self.old) (said statement.entry))) }
    {
        match statement {
            Statement::Silence => Ok(()),
            Statement::Ask(text) => self.add_ask(alloc, text),
            Statement::Domain(declared) => {
                self.stands_before_asks()?;
                self.add_domain(alloc, declared)
            }
            Statement::Relation(declared) => {
                self.stands_before_asks()?;
                self.add_relation(alloc, declared)
            }
            Statement::Fact(text) => {
                self.stands_before_asks()?;
                self.add_fact(alloc, text)
            }
            Statement::Method(method) => {
                self.stands_before_asks()?;
                self.choose_method(method)
            }
            Statement::Know(text) => {
                self.stands_before_asks()?;
                self.add_known(alloc, text)
            }
            Statement::Secrecy(text) => {
                self.stands_before_asks()?;
                self.add_secrecy(alloc, text)
            }
            Statement::Secret(text) => {
                self.stands_before_asks()?;
                self.add_secret(alloc, text)
            }
            Statement::Budget(budget) => {
                self.stands_before_asks()?;
                self.allow_budget(budget)
            }
        }
    }

    /// A declaration stands before the first ask.
    fn stands_before_asks(&self) -> Result<(), LineError>
        ensures before { OnOk result (nat_le 1 (length (script_is self.now).asks) ≡ false) }
        ensures behind { IfErr result (λ e. (e ≡ LineError.Refused ScriptKind.Order)
            × (nat_le 1 (length (script_is self.now).asks) ≡ true)) }
    {
        if self.asks.is_empty() {
            Ok(())
        } else {
            Err(LineError::Refused(ScriptKind::Order))
        }
    }

    /// One more domain.
    fn add_domain(&mut self, alloc: Global, declared: Declared) -> Result<(), LineError>
        ensures added { OnOk result
            (declare (with_domain (script_is self.old) (declaration_of declared))
            ≡ Ok (script_is self.new)) }
        ensures refused { IfErr result
            (Refuses (declare (with_domain (script_is self.old) (declaration_of declared)))) }
    {
        law_views_without_entries();
        let domains = copies_with(alloc, &self.domains, &declared)?;
        let relations = copies(alloc, &self.relations)?;
        let schema = new_schema(alloc, domains, relations)?;
        self.domains.push(declared)?;
        self.schema = schema;
        Ok(())
    }

    /// One more relation.
    fn add_relation(&mut self, alloc: Global, declared: Declared) -> Result<(), LineError>
        ensures added { OnOk result
            (declare (with_relation (script_is self.old) (declaration_of declared))
            ≡ Ok (script_is self.new)) }
        ensures refused { IfErr result
            (Refuses (declare (with_relation (script_is self.old) (declaration_of declared)))) }
    {
        law_views_without_entries();
        let domains = copies(alloc, &self.domains)?;
        let relations = copies_with(alloc, &self.relations, &declared)?;
        let schema = new_schema(alloc, domains, relations)?;
        self.relations.push(declared)?;
        self.schema = schema;
        Ok(())
    }

    /// The method, which is said once.
    fn choose_method(&mut self, method: Method) -> Result<(), LineError>
        ensures added { OnOk result (choose (script_is self.old) method ≡ Ok (script_is self.new)) }
        ensures refused { IfErr result (Refuses (choose (script_is self.old) method)) }
    {
        if self.method.is_some() {
            return Err(LineError::Refused(ScriptKind::Order));
        }
        law_views_without_entries();
        self.method = Some(method);
        Ok(())
    }

    /// The budget, which is said once, and is from 1 to 4,000,000.
    fn allow_budget(&mut self, budget: u64) -> Result<(), LineError>
        ensures added { OnOk result (allow (script_is self.old) budget ≡ Ok (script_is self.new)) }
        ensures refused { IfErr result (Refuses (allow (script_is self.old) budget)) }
    {
        if self.budget.is_some() {
            return Err(LineError::Refused(ScriptKind::Order));
        }
        if budget < 1 || budget > 4_000_000 {
            return Err(LineError::Refused(ScriptKind::Limit));
        }
        law_views_without_entries();
        self.budget = Some(budget);
        Ok(())
    }

    /// One more fact.
    fn add_fact(&mut self, alloc: Global, text: &str) -> Result<(), LineError>
        requires { length text.now ≤ 4096 }
        ensures added { OnOk result
            (state (script_is self.old) (stated_fact (script_schema (script_is self.old)) text.now)
            ≡ Ok (script_is self.new)) }
        ensures refused { IfErr result
            (Refuses (state (script_is self.old)
            (stated_fact (script_schema (script_is self.old)) text.now))) }
    {
        let Some(fact) = stated_fact(alloc, &self.schema, text)? else {
            return Err(LineError::Refused(ScriptKind::Fact));
        };
        match self.facts.insert(&self.schema, fact) {
            Ok(_) => Ok(()),
            Err(WorldError::Memory) => Err(LineError::Memory),
            Err(_) => Err(LineError::Refused(ScriptKind::Fact)),
        }
    }

    /// A sentence over the names that stand above.
    fn read(&self, alloc: Global, text: &str) -> Result<Sentence, LineError>
        requires { length text.now ≤ 4096 }
        ensures read { IfOk result (λ s. reading (script_schema (script_is self.now)) text.now
            ≡ Ok (formula_of s)) }
        ensures sentence { IfOk result (λ s. is_sentence_of self.now.schema (formula_of s) ≡ true) }
        ensures refused { IfErr result
            (IsNoSentence (reading (script_schema (script_is self.now)) text.now)) }
    {
        match read_sentence(alloc, &self.schema, text) {
            Ok(sentence) => Ok(sentence),
            Err(ReadError::Text(_)) => Err(LineError::Refused(ScriptKind::Sentence)),
            Err(ReadError::Memory) => Err(LineError::Memory),
        }
    }

    /// One more sentence that the user knows.
    fn add_known(&mut self, alloc: Global, text: &str) -> Result<(), LineError>
        requires { length text.now ≤ 4096 }
        ensures added { OnOk result
            (say (with_known (script_is self.old))
            (reading (script_schema (script_is self.old)) text.now) ≡ Ok (script_is self.new)) }
        ensures refused { IfErr result
            (Refuses (say (with_known (script_is self.old))
            (reading (script_schema (script_is self.old)) text.now))) }
    {
        law_views_without_entries();
        let sentence = self.read(alloc, text)?;
        let count = nodes(&sentence, &self.schema);
        if !keeps_limits(
            count,
            self.know.len(),
            KNOWN,
            self.view_nodes.saturating_add(count),
        ) {
            return Err(LineError::Refused(ScriptKind::Limit));
        }
        self.know.push(sentence)?;
        self.view_nodes += count;
        Ok(())
    }

    /// How many secrets the secrecies and the others make.
    fn secret_count(&self) -> usize
        ensures count { result ≡ length (all_secrets (script_is self.now)) }
        ensures few { result ≤ 16 }
    {
        law_secrets_made();
        2 * self.secrecies.len() + self.secrets.len()
    }

    /// One more secrecy, of which the negation is a secret too.
    fn add_secrecy(&mut self, alloc: Global, text: &str) -> Result<(), LineError>
        requires { length text.now ≤ 4096 }
        ensures added { OnOk result
            (say_secrecy (script_is self.old)
            (reading (script_schema (script_is self.old)) text.now) ≡ Ok (script_is self.new)) }
        ensures refused { IfErr result
            (Refuses (say_secrecy (script_is self.old)
            (reading (script_schema (script_is self.old)) text.now))) }
    {
        law_views_without_entries();
        let sentence = self.read(alloc, text)?;
        let count = nodes(&sentence, &self.schema).saturating_add(1);
        let view_nodes = self
            .view_nodes
            .saturating_add(count)
            .saturating_add(count)
            .saturating_add(1);
        if !keeps_limits(count, self.secret_count() + 1, SECRETS, view_nodes) {
            return Err(LineError::Refused(ScriptKind::Limit));
        }
        self.secrecies.push(sentence)?;
        self.view_nodes = view_nodes;
        Ok(())
    }

    /// One more secret.
    fn add_secret(&mut self, alloc: Global, text: &str) -> Result<(), LineError>
        requires { length text.now ≤ 4096 }
        ensures added { OnOk result
            (say (with_secret (script_is self.old))
            (reading (script_schema (script_is self.old)) text.now) ≡ Ok (script_is self.new)) }
        ensures refused { IfErr result
            (Refuses (say (with_secret (script_is self.old))
            (reading (script_schema (script_is self.old)) text.now))) }
    {
        law_views_without_entries();
        let sentence = self.read(alloc, text)?;
        let count = nodes(&sentence, &self.schema);
        let view_nodes = self.view_nodes.saturating_add(count).saturating_add(1);
        if !keeps_limits(count, self.secret_count(), SECRETS, view_nodes) {
            return Err(LineError::Refused(ScriptKind::Limit));
        }
        self.secrets.push(sentence)?;
        self.view_nodes = view_nodes;
        Ok(())
    }

    /// One more ask, which stands behind a method and a secret or a secrecy.
    fn add_ask(&mut self, alloc: Global, text: &str) -> Result<(), LineError>
        requires { length text.now ≤ 4096 }
        ensures added { OnOk result
            (ask_next (script_is self.old) text.now ≡ Ok (script_is self.new)) }
        ensures refused { IfErr result (Refuses (ask_next (script_is self.old) text.now)) }
    {
        if self.method.is_none() || self.secret_count() == 0 {
            return Err(LineError::Refused(ScriptKind::Order));
        }
        let text = String::from_str(alloc, text)?;
        self.asks.push(text)?;
        Ok(())
    }
}

impl script_lines::Script for Script {
    ghost use Rattle.case_engine.specs.Script;
    ghost use Rattle.case_engine.specs.Script.{with_line};
    ghost use Rattle.case_engine.specs.ScriptsRead.{script_is};

    ghost Said = { Script.Script };

    ghost said = { script_is };

    ghost step = { with_line };

    fn take(&mut self, alloc: Global, line: &[u8]) -> Result<(), LineError> {
        match statement_of(alloc, line)? {
            Some(statement) => self.say(alloc, statement),
            None => Err(LineError::Refused(ScriptKind::NotALine)),
        }
    }
}

/// Whether a sentence of so many nodes may join so many others, and the view then have so many.
fn keeps_limits(count: u64, length: usize, most: usize, view_nodes: u64) -> bool
    ensures { result ≡ (nat_le count 20000 && (nat_lt length most && nat_le view_nodes 40000)) }
{
    count <= SENTENCE_NODES && length < most && view_nodes <= VIEW_NODES
}

/// The schema of declarations.
fn new_schema(
    alloc: Global,
    domains: Vec<Declared>,
    relations: Vec<Declared>,
) -> Result<Schema, LineError>
    ensures accepted { IfOk result (λ schema.
        (schema_refusal (map declaration_of domains.items) (map declaration_of relations.items)
        ≡ None)
        × (schema ≡ schema_of (map declaration_of domains.items)
        (map declaration_of relations.items))) }
    ensures refused { IfErr result
        (IsSchemaRefusal (map declaration_of domains.items) (map declaration_of relations.items)) }
{
    match Schema::new(alloc, domains, relations) {
        Ok(schema) => Ok(schema),
        Err(SchemaError::Memory) => Err(LineError::Memory),
        Err(_) => Err(LineError::Refused(ScriptKind::Schema)),
    }
}

/// A declaration in memory of its own.
fn copy(alloc: Global, declared: &Declared) -> Result<Declared, AllocError>
    ensures { IfOk result (λ copy. declaration_of copy ≡ declaration_of declared.now) }
{
    let name = declared.0.clone()?;
    let parts = copied_texts(alloc, &declared.1)?;
    Ok((name, parts))
}

/// Texts in memory of their own.
fn copied_texts(alloc: Global, texts: &[String]) -> Result<Vec<String>, AllocError>
    ensures { IfOk result (λ copies. map string_bytes copies.items ≡ map string_bytes texts.now) }
{
    let mut copies = Vec::new(alloc);
    for text in texts {
        copies.push(text.clone()?)?;
    }
    Ok(copies)
}

/// Declarations in memory of their own.
fn copies(alloc: Global, declared: &[Declared]) -> Result<Vec<Declared>, AllocError>
    ensures { IfOk result (λ copies. map declaration_of copies.items
        ≡ map declaration_of declared.now) }
{
    let mut copies = Vec::new(alloc);
    for one in declared {
        copies.push(copy(alloc, one)?)?;
    }
    Ok(copies)
}

/// Declarations in memory of their own, and one more.
fn copies_with(
    alloc: Global,
    declared: &[Declared],
    last: &Declared,
) -> Result<Vec<Declared>, AllocError>
    ensures { IfOk result (λ copies. map declaration_of copies.items
        ≡ map declaration_of declared.now ++ declaration_of last.now ∷ []) }
{
    let mut copies = copies(alloc, declared)?;
    copies.push(copy(alloc, last)?)?;
    Ok(copies)
}
