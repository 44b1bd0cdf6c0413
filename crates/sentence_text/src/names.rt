//! Names and columns of a schema, by their numbers.

ghost use Rattle.std.specs.Prelude.{◌≡◌, ◌≤◌, length};
ghost use Rattle.cqe_base.specs.Reading.{column_domains};
ghost use Rattle.cqe_base.specs.Canonical.{domain_name, relation_name, constant_name};

use cqe_base::schema::Schema;
use cqe_base::sentence::Constant;

/// The name of a domain; the empty text where there is none.
pub fn domain_name(schema: &Schema, domain: u32) -> &str
    ensures { result.now ≡ domain_name schema.now domain }
{
    match schema.domains().get(domain as usize) {
        Some(domain) => domain.name.as_str(),
        None => "",
    }
}

/// The name of a relation; the empty text where there is none.
pub fn relation_name(schema: &Schema, relation: u32) -> &str
    ensures { result.now ≡ relation_name schema.now relation }
{
    match schema.relations().get(relation as usize) {
        Some(relation) => relation.name.as_str(),
        None => "",
    }
}

/// The name of a constant; the empty text where there is none.
pub fn constant_name(schema: &Schema, constant: Constant) -> &str
    ensures { result.now ≡ constant_name schema.now constant }
{
    match schema.domains().get(constant.domain as usize) {
        Some(domain) => match domain.constants.get(constant.index as usize) {
            Some(name) => name.as_str(),
            None => "",
        },
        None => "",
    }
}

/// The domains of the columns of a relation, at most six; none where there is no such relation.
pub fn columns(schema: &Schema, relation: u32) -> &[u32]
    ensures domains { result.now ≡ column_domains schema.now relation }
    ensures few { length result.now ≤ 6 }
{
    schema.known();
    column_domains(schema, relation)
}

/// The domains of the columns of a relation; none where there is no such relation.
fn column_domains(schema: &Schema, relation: u32) -> &[u32]
    ensures { result.now ≡ column_domains schema.now relation }
{
    match schema.relations().get(relation as usize) {
        Some(relation) => relation.columns.as_slice(),
        None => &[],
    }
}
