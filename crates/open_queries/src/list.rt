//! The instances of an open query.

ghost use Rattle.std.specs.Prelude.{◌≡◌, ◌≤◌, ◌<◌, ◌^◌, IfOk, length, string_bytes};
ghost use Rattle.cqe_base.specs.Formula.{formula_of};
ghost use Rattle.open_queries.specs.Instances.{IsOpenQueryOf, SaysOf, ReadsBackAs, instances};
ghost use Rattle.open_queries.specs.Instances.{combinations, digits, in_four, chosen};
ghost use Rattle.open_queries.specs.Instances.{constants_of_instance, instance_of, instance_text};
ghost use Rattle.open_queries.specs.Memory.{open_query};

use crate::filling::filled;
use cqe_base::schema::Schema;
use cqe_base::sentence::{Constant, Sentence};
use sentence_text::print_sentence;
use std::alloc::{AllocError, Global};

/// A sentence of which the first quantifiers, all `exists`, were taken off.
#[derive(Drop)]
pub struct OpenList {
    /// The numbers of the domains of these quantifiers, the outermost first: one to four.
    pub domains: Vec<u32>,
    /// What they bound: its first places are their variables.
    pub body: Sentence,
}

impl OpenList {
    /// How many instances there are: one for each choice of a constant of each domain.
    pub fn instances(&self, schema: &Schema) -> u32
        requires { IsOpenQueryOf schema.now (open_query self.now) }
        ensures { result ≡ instances schema.now (open_query self.now) }
    {
        combinations(schema, self.domains.as_slice()) as u32
    }

    /// The places of an instance's constants in their domains, the first quantifier's first, and 0
    /// where there is no further domain.
    pub fn constants(&self, schema: &Schema, number: u32) -> [u32; 4]
        requires of_schema { IsOpenQueryOf schema.now (open_query self.now) }
        requires number { number < instances schema.now (open_query self.now) }
        ensures { result ≡ in_four (digits schema.now self.now.domains.items number) }
    {
        digits(schema, self.domains.as_slice(), number)
    }

    /// The text of an instance.
    pub fn instance(
        &self,
        alloc: Global,
        schema: &Schema,
        number: u32,
    ) -> Result<String, AllocError>
        requires of_schema { IsOpenQueryOf schema.now (open_query self.now) }
        requires number { number < instances schema.now (open_query self.now) }
        // It is the canonical form of the instance.
        ensures text { IfOk result (λ text. string_bytes text
            ≡ instance_text schema.now (open_query self.now) number) }
        // It reads as the instance, where at most 64 constructs enclose a place of it.
        ensures read_back { IfOk result (λ text. ReadsBackAs schema.now (string_bytes text)
            (instance_of schema.now (open_query self.now) number)) }
        // The instance is true exactly where the body with its constants is.
        ensures truth { SaysOf schema.now
            (constants_of_instance schema.now (open_query self.now) number)
            (formula_of self.now.body) (instance_of schema.now (open_query self.now) number) }
    {
        let instance = self.sentence(alloc, schema, number)?;
        print_sentence(alloc, schema, &instance)
    }

    /// An instance, in memory of its own.
    fn sentence(&self, alloc: Global, schema: &Schema, number: u32) -> Result<Sentence, AllocError>
        requires of_schema { IsOpenQueryOf schema.now (open_query self.now) }
        requires number { number < instances schema.now (open_query self.now) }
        ensures { IfOk result (λ instance.
            formula_of instance ≡ instance_of schema.now (open_query self.now) number) }
    {
        let indices = self.constants(schema, number);
        let constants = chosen(alloc, self.domains.as_slice(), &indices)?;
        filled(alloc, constants.as_slice(), &self.body)
    }
}

/// How many ways there are to choose a constant from each of at most four domains.
pub fn combinations(schema: &Schema, domains: &[u32]) -> u64
    requires { length domains.now ≤ 4 }
    ensures ways { result ≡ combinations schema.now domains.now }
    ensures fit { result ≤ 1024 ^ length domains.now }
{
    match domains.split_first() {
        Some((domain, others)) => schema.domain_size(*domain) as u64 * combinations(schema, others),
        None => 1,
    }
}

/// The digits of a number over the sizes of the domains, the first domain's being the highest.
fn digits(schema: &Schema, domains: &[u32], number: u32) -> [u32; 4]
    requires few { length domains.now ≤ 4 }
    requires number { number < combinations schema.now domains.now }
    ensures { result ≡ in_four (digits schema.now domains.now number) }
{
    let mut digits = [0; 4];
    let mut rest = u64::from(number);
    for place in 0..domains.len() {
        let others = combinations(schema, &domains[place + 1..]);
        digits[place] = (rest / others) as u32;
        rest %= others;
    }
    digits
}

/// The constants with these indices, one of each domain.
fn chosen(alloc: Global, domains: &[u32], indices: &[u32]) -> Result<Vec<Constant>, AllocError>
    ensures { IfOk result (λ constants. constants.items ≡ chosen domains.now indices.now) }
{
    let mut constants = Vec::new(alloc);
    for (domain, index) in domains.iter().zip(indices) {
        constants.push(Constant {
            domain: *domain,
            index: *index,
        })?;
    }
    Ok(constants)
}
