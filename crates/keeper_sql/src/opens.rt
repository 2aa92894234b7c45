//! What opens a file.

use sqlite::{Alter, Connection, Error, File, FileStore};

/// A store in a file, which is opened by the file's name. A `SqlKeeper` is a keeper over every such store, so that its proof
/// rests on nothing that only a real file has.
pub trait Opens: Alter + Drop {
    /// Opens the file of this name, or makes it where there is none.
    fn open(rt: &HostRuntime, name: &str) -> Result<Connection<Self>, Error>;
}

impl Opens for FileStore<File> {
    fn open(rt: &HostRuntime, name: &str) -> Result<Connection<FileStore<File>>, Error> {
        Connection::open(rt, name)
    }
}
