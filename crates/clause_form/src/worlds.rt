//! The world of a model.

ghost use Rattle.std.specs.Prelude.{◌≡◌, true, ◌<◌, OnOk};
ghost use Rattle.std.specs.FinSet as set;
ghost use Rattle.cqe_base.specs.Facts.{is_fact_of};
ghost use Rattle.cqe_base.specs.Literal.{sign_at};

use clause_store::refutation::Signs;
use cqe_base::schema::Schema;
use cqe_base::world::{Fact, World, WorldError};
use std::alloc::AllocError;

/// The sign of a variable, false where the model has none.
pub fn sign_of(model: &Signs, variable: u32) -> bool
    ensures { result ≡ sign_at model.now.values.items variable }
{
    model
        .values
        .get(variable as usize)
        .copied()
        .unwrap_or(false)
}

/// Adds a fact of the schema to a world with room for it.
pub fn add_fact(world: &mut World, schema: &Schema, fact: &Fact) -> Result<(), AllocError>
    requires of_schema { is_fact_of schema.now fact.now ≡ true }
    requires room { set.len world.old < 100000 }
    ensures { OnOk result (world.new ≡ set.insert world.old fact.now) }
{
    match world.insert(schema, *fact) {
        Ok(_) => Ok(()),
        Err(WorldError::Memory) => Err(AllocError),
        Err(WorldError::NotOfSchema) => unreachable!(),
        Err(WorldError::Full) => unreachable!(),
    }
}
