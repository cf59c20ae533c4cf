ghost use Rattle.std.specs.Prelude.{◌<◌, vec_len};

use crate::workers::Workers;

/// What `mvo work` is asked to do: run each file's script as a job over the store in a folder.
#[derive(Debug, Drop)]
pub struct WorkTask<'a> {
    pub folder: &'a str,
    pub workers: Workers,
    /// Whether the store is kept meanwhile.
    pub keeps: bool,
    files: Vec<&'a str>,
    ghost some: { 0 < vec_len files },
}

impl<'a> WorkTask<'a> {
    ghost use Rattle.std.specs.Prelude.{◌≡◌, ◌<◌, vec_len, length};

    /// Jobs of these files, at least one.
    pub fn new(folder: &'a str, workers: Workers, keeps: bool, files: Vec<&'a str>) -> WorkTask<'a>
        requires { 0 < vec_len files }
        ensures folder { result.folder ≡ folder.entry }
        ensures workers { result.workers ≡ workers }
        ensures keeps { result.keeps ≡ keeps }
        ensures files { result.files.items ≡ files.entry.items }
        ensures some { 0 < vec_len result.files }
    {
        WorkTask {
            folder,
            workers,
            keeps,
            files,
        }
    }

    /// The paths of the files, in order. There is at least one.
    pub fn files(&self) -> &[&'a str]
        ensures value { result.now ≡ self.now.files.items }
        ensures some { 0 < length result.now }
    {
        &self.files
    }
}
