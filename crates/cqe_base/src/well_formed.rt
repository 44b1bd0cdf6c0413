//! Which sentences are sentences of a schema.
ghost use Rattle.std.specs.Prelude.{◌≡◌, true, ◌+◌, ◌≤◌, ◌<◌, [], ◌∷◌, ◌++◌, ◌&&◌, length, take};
ghost use Rattle.cqe_base.specs.Schema.{columns_of};
ghost use Rattle.cqe_base.specs.Formula.{formula_of, term_domain, is_domain, have_one_domain};
ghost use Rattle.cqe_base.specs.Formula.{have_domains, fit_relation, may_quantify, is_well_formed};
ghost use Rattle.cqe_base.specs.Formula.{is_sentence_of};

use crate::schema::Schema;
use crate::sentence::{Sentence, Term};

/// Whether it is a closed sentence of the schema: each variable is bound by one of the enclosing
/// quantifiers, of which at most eight are nested, and each term has the domain that its column or
/// the other side of its equation asks for.
pub fn is_sentence_of(schema: &Schema, sentence: &Sentence) -> bool
    ensures { result ≡ is_sentence_of schema.now (formula_of sentence.now) }
{
    is_well_formed(schema, [0; 8], 0, sentence)
}

/// Whether a sentence is well formed within so many quantifiers over these domains.
#[cycle(well_formed)]
fn is_well_formed(schema: &Schema, scope: [u32; 8], depth: usize, sentence: &Sentence) -> bool
    requires { depth ≤ 8 }
    ensures { result ≡ is_well_formed schema.now (take depth scope) (formula_of sentence.now) }
{
    match sentence {
        Sentence::True => true,
        Sentence::False => true,
        Sentence::Atom(relation, terms) => {
            fit_relation(schema, &scope[..depth], terms.as_slice(), *relation)
        }
        Sentence::Equal(s, t) => have_one_domain(schema, &scope[..depth], s, t),
        Sentence::Differs(s, t) => have_one_domain(schema, &scope[..depth], s, t),
        Sentence::Not(a) => is_well_formed(schema, scope, depth, a),
        Sentence::And(a, b) => {
            is_well_formed(schema, scope, depth, a) && is_well_formed(schema, scope, depth, b)
        }
        Sentence::Or(a, b) => {
            is_well_formed(schema, scope, depth, a) && is_well_formed(schema, scope, depth, b)
        }
        Sentence::Implies(a, b) => {
            is_well_formed(schema, scope, depth, a) && is_well_formed(schema, scope, depth, b)
        }
        Sentence::Iff(a, b) => {
            is_well_formed(schema, scope, depth, a) && is_well_formed(schema, scope, depth, b)
        }
        Sentence::Forall(domain, body) => is_quantified(schema, scope, depth, *domain, body),
        Sentence::Exists(domain, body) => is_quantified(schema, scope, depth, *domain, body),
    }
}

/// Whether a quantifier over a domain and its body are well formed.
#[cycle(well_formed)]
fn is_quantified(
    schema: &Schema,
    scope: [u32; 8],
    depth: usize,
    domain: u32,
    body: &Sentence,
) -> bool
    requires { depth ≤ 8 }
    ensures { result
        ≡ (may_quantify schema.now (take depth scope) domain
        && is_well_formed schema.now (take depth scope ++ domain ∷ []) (formula_of body.now)) }
{
    if depth >= 8 || (domain as usize) >= schema.domains().len() {
        return false;
    }
    let mut scope = scope;
    scope[depth] = domain;
    is_well_formed(schema, scope, depth + 1, body)
}

/// The domain of a term, if it has one.
fn term_domain(schema: &Schema, scope: &[u32], term: &Term) -> Option<u32>
    ensures { result ≡ term_domain schema.now scope.now term.now }
{
    match term {
        Term::Constant(constant) => {
            if (constant.index as usize) < schema.domain_size(constant.domain) {
                Some(constant.domain)
            } else {
                None
            }
        }
        Term::Place(i) => scope.get(*i as usize).copied(),
    }
}

/// Whether there is a domain, and it is this one.
fn is_domain(found: Option<u32>, domain: u32) -> bool
    ensures { result ≡ is_domain found domain }
{
    found == Some(domain)
}

/// Whether both terms have a domain, and the same.
fn have_one_domain(schema: &Schema, scope: &[u32], s: &Term, t: &Term) -> bool
    ensures { result
        ≡ have_one_domain (term_domain schema.now scope.now s.now)
        (term_domain schema.now scope.now t.now) }
{
    match term_domain(schema, scope, s) {
        Some(domain) => is_domain(term_domain(schema, scope, t), domain),
        None => false,
    }
}

/// Whether terms fit a relation.
fn fit_relation(schema: &Schema, scope: &[u32], terms: &[Term], relation: u32) -> bool
    ensures { result
        ≡ fit_relation schema.now scope.now terms.now (columns_of schema.now relation) }
{
    match schema.relations().get(relation as usize) {
        Some(found) => have_domains(schema, scope, terms, &found.columns),
        None => false,
    }
}

/// Whether there are as many terms as columns, and each term has its column's domain.
fn have_domains(schema: &Schema, scope: &[u32], terms: &[Term], columns: &[u32]) -> bool
    ensures { result ≡ have_domains schema.now scope.now terms.now columns.now }
{
    let Some((term, more_terms)) = terms.split_first() else {
        return columns.is_empty();
    };
    match columns.split_first() {
        Some((column, more_columns)) => {
            is_domain(term_domain(schema, scope, term), *column)
                && have_domains(schema, scope, more_terms, more_columns)
        }
        None => false,
    }
}
