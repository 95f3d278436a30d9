//! Files that were read: what a program is given of its input.

ghost use Rattle.std.specs.Prelude.{◌≡◌};
ghost use Rattle.programs.specs.Files.{outcome_view, read_at, IsRead};

/// A path, and what reading its file gave.
#[derive(Debug, Drop)]
pub struct FileRead<'p> {
    /// The path by which the file is asked for.
    pub path: &'p str,
    /// Its bytes, or why it was not read.
    pub bytes: Result<Vec<u8>, ReadFault>,
}

/// Why a file was not read.
#[derive(Clone, Copy, Debug, PartialEq, Eq)]
pub enum ReadFault {
    /// A request for memory was refused.
    Memory,
    /// The file can't be read.
    Unreadable,
}

impl FileRead<'_> {
    /// The bytes, or why the file was not read.
    pub fn bytes(&self) -> Result<&[u8], ReadFault>
        ensures { IsRead result (outcome_view self.now.bytes) }
    {
        match &self.bytes {
            Ok(bytes) => Ok(bytes.as_slice()),
            Err(fault) => Err(*fault),
        }
    }
}

/// The bytes of the first file with the path. Where there is none, it can't be read.
pub fn bytes_at<'f>(files: &'f [FileRead<'_>], path: &str) -> Result<&'f [u8], ReadFault>
    ensures { IsRead result (read_at files.now path.now) }
{
    for file in files {
        if file.path == path {
            return file.bytes();
        }
    }
    Err(ReadFault::Unreadable)
}
