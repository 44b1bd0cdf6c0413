//! What users' desks stand on.

use cqe_base::schema::Schema;
use cqe_base::user::User;
use cqe_base::world::World;
use log_journal::Header;

/// The database, the users of a policy, and where their journals lie: that of a user is the disk
/// `DIRECTORY/NAME.log`.
#[derive(Clone, Copy)]
pub struct Registry<'w> {
    pub schema: &'w Schema,
    pub world: &'w World,
    pub users: &'w [User],
    /// The header of each journal.
    pub header: &'w Header,
    pub directory: &'w str,
}
