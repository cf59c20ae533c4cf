use mvo_types::Refusal;
use std::fmt;

/// A refusal for which the program ends, as standard error tells of it: its number, and for what a
/// user can mend one line more, which says what is refused and where. Each line has its line feed.
#[derive(Clone, Copy, Debug)]
pub struct ToldRefusal(pub Refusal);

impl fmt::Display for ToldRefusal {
    fn fmt<W: fmt::Write>(&self, f: &mut fmt::Formatter<W>) -> fmt::Result {
        let refusal = self.0;
        match refusal {
            Refusal::Corrupt(file) => {
                let kind = kind_of(file);
                write!(
                    f,
                    "{refusal}\nthe folder's file {file:04}, {kind}, breaks a rule of its format: \
                     restore the folder from a copy\n"
                )
            }
            _ => write!(f, "{refusal}\n{}", line_of(refusal)),
        }
    }
}

/// What stands in the file with this number.
fn kind_of(file: u16) -> &'static str {
    match file {
        0 | 1 => "a slot of the manifest",
        _ => "a segment of the log or a file of a pair",
    }
}

/// The line behind the number, with its line feed. It is empty where the number tells all.
fn line_of(refusal: Refusal) -> &'static str {
    match refusal {
        Refusal::DiskFault => {
            "the disk met a fault: the folder or a file in it can't be opened, read, written or \
             synced\n"
        }
        Refusal::NotFormatted =>
            "the folder isn't there or holds no store: mvo format FOLDER makes one\n",
        Refusal::BadVersion => {
            "a file of the folder is of another version: mvo --version says which versions are \
             read\n"
        }
        Refusal::AlreadyFormatted => "the folder holds a store already\n",
        Refusal::OutOfMemory => "memory was refused: it takes more, or a higher limit\n",
        _ => "",
    }
}
