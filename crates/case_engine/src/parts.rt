//! The parts of a script that was read whole.

use cqe_base::schema::Schema;
use cqe_base::user::User;
use cqe_base::world::World;

/// The parts of a script: the database, its one user, and the texts that he asks.
#[derive(Drop)]
pub struct Parts {
    pub schema: Schema,
    pub facts: World,
    pub user: User,
    pub asks: Vec<String>,
}
