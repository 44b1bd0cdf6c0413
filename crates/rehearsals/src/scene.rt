//! What a scene consists of.

/// A name and the bytes under it.
#[derive(Drop)]
pub struct Named {
    pub name: String,
    pub bytes: Vec<u8>,
}

/// A client of a server: what he sends, and what he has to get.
#[derive(Drop)]
pub struct Client {
    pub sends: Vec<u8>,
    pub gets: Vec<u8>,
}

/// A call, and what has to come of it.
#[derive(Drop)]
pub struct Call {
    /// The program, and the words behind it.
    pub words: Vec<String>,
    pub input: Vec<u8>,
    pub clients: Vec<Client>,
    pub output: Vec<u8>,
    pub complaint: Vec<u8>,
    pub status: u8,
    /// Whether nothing may be read of the input.
    pub unread: bool,
    /// Whether no standby is reached.
    pub unreached: bool,
    /// The frames that a standby has to be given, one behind the other.
    pub frames: Vec<u8>,
    /// How many clients are left in the end.
    pub left: usize,
    /// The disks that are there afterwards, with their bytes.
    pub kept: Vec<Named>,
    /// The names of which no disk is there afterwards.
    pub gone: Vec<String>,
}

/// A step of a scene.
#[derive(Drop)]
pub enum Step {
    /// A file is put on the shelf.
    File(Named),
    /// A disk is put in the place of the one of this name.
    Disk(Named),
    /// A program is called.
    Call(Call),
}

/// A scene: its steps over one shelf, played once for each size of the pieces in which streams give
/// and take.
#[derive(Drop)]
pub struct Scene {
    pub name: String,
    pub cuts: Vec<usize>,
    pub steps: Vec<Step>,
}
