//! Laws of forms, models and worlds. Each function computes nothing: its clause is the law.

ghost use Rattle.clause_form.specs.Forms.{AddedFormsGrow};
ghost use Rattle.clause_form.specs.Models.{ModelsAreWorldsOfSchema};

use cqe_base::laws::law_grounding;
use cqe_base::machine_laws::{
    law_clause_form_is_prefix, law_model_gives_world, law_models_are_worlds,
    law_numbered_facts_are_of_schema, law_numbering_goes_on,
};

/// The form of a list with one more formula is that of the list with the formula added.
pub fn law_added_forms_grow()
    ensures { AddedFormsGrow }
{
    law_clause_form_is_prefix();
    law_numbering_goes_on();
}

/// The clauses of a list of sentences of a valid schema have a model exactly where some world of
/// the schema makes the list true.
pub fn law_models_are_worlds_of_schema()
    ensures { ModelsAreWorldsOfSchema }
{
    law_grounding();
    law_models_are_worlds();
    law_model_gives_world();
    law_numbered_facts_are_of_schema();
}
