// The name of a file for rows.
ghost use Rattle.std.specs.Prelude.{◌≡◌, IfOk};

use std::alloc::{AllocError, Global};
use std::marker::Model;

/// The name of a file that rows are to be written into. Contracts see the bytes of the name.
#[derive(Debug, Drop)]
pub struct RowsFile {
    name: String,
}

impl Model for RowsFile {
    ghost use Rattle.std.specs.Prelude.{ℕ, List, string_bytes};

    ghost Value = { List ℕ };

    ghost view = { λ file. string_bytes file.name };
}

impl RowsFile {
    /// The file with this name. Fails if memory runs out.
    pub fn new(alloc: Global, name: &str) -> Result<RowsFile, AllocError>
        ensures { IfOk result (λ file. file ≡ name.now) }
    {
        let name = String::from_str(alloc, name)?;
        Ok(RowsFile { name })
    }

    pub fn name(&self) -> &str
        ensures { result.now ≡ self.now }
    {
        self.name.as_str()
    }
}
