// Files in which an engine saves its rows.
use crate::outputs::place_of_part;
use sq_outputs::{
    NewFile, SystemFolder, file_to_write, is_other_than_file, leads_nowhere, place_of,
    place_of_standard_output, save,
};
use std::fmt::{Display, Formatter, Write};
use std::io::ErrorKind;
use std::rt::Files;
use std::{fmt, io};

/// The places of the files in which no rows are saved.
#[derive(Drop)]
pub struct PlacesInUse {
    /// The places of the files that the engine reads.
    read: Vec<String>,
    /// The places of its reports and of their part files.
    reports: Vec<String>,
    /// The place of standard output, if that is a file.
    answers: Option<String>,
}

/// Why rows aren't saved in a file.
#[derive(Debug, Drop)]
pub enum Unsavable {
    /// The name is that of a folder, a device or a pipe.
    NoFile,
    /// The name is that of a link that leads nowhere.
    NoTarget,
    /// The engine reads the file.
    IsRead,
    /// A report goes into the file.
    IsReport,
    /// The engine's answers go into the file.
    HasAnswers,
    /// The system refuses it.
    System(io::Error),
}

impl From<io::Error> for Unsavable {
    fn from(error: io::Error) -> Unsavable {
        Unsavable::System(error)
    }
}

impl From<Unsavable> for io::Error {
    fn from(unsavable: Unsavable) -> io::Error {
        match unsavable {
            Unsavable::System(error) => error,
            _ => io::Error::from(ErrorKind::InvalidFilename),
        }
    }
}

impl Display for Unsavable {
    fn fmt<W: Write>(&self, f: &mut Formatter<W>) -> fmt::Result {
        match self {
            Unsavable::NoFile => f.write_str("it is no file"),
            Unsavable::NoTarget => f.write_str("it is a link that leads to no file"),
            Unsavable::IsRead => f.write_str("the engine reads it"),
            Unsavable::IsReport => f.write_str("a report is to be in it"),
            Unsavable::HasAnswers => f.write_str("it is standard output"),
            Unsavable::System(error) => write!(f, "{error}"),
        }
    }
}

impl PlacesInUse {
    /// The places of an engine that reads the files at `read` and writes its reports to those at
    /// `reports`.
    pub fn new<T: Files + AllocGlobal>(
        rt: &T,
        read: Vec<String>,
        reports: Vec<String>,
    ) -> io::Result<PlacesInUse> {
        Ok(PlacesInUse {
            read,
            reports,
            answers: place_of_standard_output(rt)?,
        })
    }

    /// Saves `text` in the file `name`, whole or not at all. Fails if the file may not be written,
    /// or if the system refuses it.
    pub fn save<T: Files + AllocGlobal>(
        &self,
        rt: &T,
        name: &str,
        text: &[u8],
    ) -> Result<(), Unsavable> {
        self.check(rt, name)?;
        let target = file_to_write(rt, name)?;
        let file = match NewFile::new(rt.alloc(), target.as_str(), text) {
            Ok(file) => file,
            Err(error) => return Err(Unsavable::System(io::Error::from(error))),
        };
        match save(&mut SystemFolder::new(rt), &[file]) {
            Ok(()) => Ok(()),
            Err(unsaved) => Err(Unsavable::System(unsaved.error)),
        }
    }

    // Fails if no rows may be saved in the file `name`.
    fn check<T: Files + AllocGlobal>(&self, rt: &T, name: &str) -> Result<(), Unsavable> {
        if leads_nowhere(rt, name) {
            return Err(Unsavable::NoTarget);
        }
        if is_other_than_file(rt, name) {
            return Err(Unsavable::NoFile);
        }
        self.check_place(place_of(rt, name)?.as_str())?;
        self.check_place(place_of_part(rt, name)?.as_str())
    }

    // Fails if the file at `place` is in use.
    fn check_place(&self, place: &str) -> Result<(), Unsavable> {
        let answers = self.answers.as_ref();
        if is_among(&self.read, place) {
            Err(Unsavable::IsRead)
        } else if is_among(&self.reports, place) {
            Err(Unsavable::IsReport)
        } else if answers.is_some_and(|answers| answers.as_str() == place) {
            Err(Unsavable::HasAnswers)
        } else {
            Ok(())
        }
    }
}

// Returns whether `place` is one of `places`.
fn is_among(places: &[String], place: &str) -> bool {
    places.iter().any(|one| one.as_str() == place)
}
