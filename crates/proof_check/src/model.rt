//! Models, and when they are right.

ghost use Rattle.std.specs.Prelude.{◌≡◌, length, nat_lt};
ghost use Rattle.std.specs.List.{list_all};
ghost use Rattle.cqe_base.specs.Literal.{variable_of, sign_at, literal_true, clause_true};
ghost use Rattle.cqe_base.specs.Refutation.{is_model};

use clause_store::clauses::Clauses;
use clause_store::literal::Lit;
use clause_store::refutation::Signs;

/// Whether there is a sign for every variable and each clause has a true literal. It goes over the
/// clauses once.
pub fn check_model(clauses: &Clauses, model: &Signs) -> bool
    ensures { result ≡ is_model clauses.now model.now.values.items }
{
    are_true(&model.values, clauses)
}

/// The same, of plain signs.
fn are_true(signs: &[bool], clauses: &Clauses) -> bool
    ensures { result ≡ is_model clauses.now signs.now }
{
    for i in 0..clauses.len() {
        let clause = clauses.clause(i);
        if !covers_clause(signs, clause) || !clause_true(signs, clause) {
            return false;
        }
    }
    true
}

/// Whether there is a sign for every variable of a clause.
fn covers_clause(signs: &[bool], clause: &[Lit]) -> bool
    ensures { result ≡ list_all (λ l. nat_lt (variable_of l) (length signs.now)) clause.now }
{
    clause.iter().all(|l| (l.variable() as usize) < signs.len())
}

/// The truth of a literal under signs.
fn literal_true(signs: &[bool], literal: Lit) -> bool
    ensures { result ≡ literal_true (sign_at signs.now) literal }
{
    let sign = signs
        .get(literal.variable() as usize)
        .copied()
        .unwrap_or(false);
    if literal.is_positive() { sign } else { !sign }
}

/// Whether some literal of a clause is true.
fn clause_true(signs: &[bool], clause: &[Lit]) -> bool
    ensures { result ≡ clause_true (sign_at signs.now) clause.now }
{
    clause.iter().any(|l| literal_true(signs, *l))
}
