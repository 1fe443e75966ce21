ghost use Rattle.std.specs.Prelude.{◌≡◌, IfOk, string_bytes};
ghost use Rattle.edge_files.specs.OwnNames.{names_view, first_names, next_names, own_name, IsBeside, numbered, staged_text};

use std::alloc::{AllocError, Global};

/// Names for files that are being written: `FOLDER/farm-PROCESS-SERIAL.ENDING`.
#[derive(Drop)]
pub struct OwnNames {
    folder: String,
    process: u32,
    serial: u64,
}

impl OwnNames {
    /// Names in this folder, for the process of this number. The first serial is 1.
    pub fn new(folder: String, process: u32) -> OwnNames
        ensures { names_view result ≡ first_names (string_bytes folder) process }
    {
        OwnNames {
            folder,
            process,
            serial: 0,
        }
    }

    /// The name with the last serial.
    fn current(&self, alloc: Global, ending: &str) -> Result<String, AllocError>
        ensures { IfOk result (λ name. string_bytes name ≡ own_name (names_view self.now) ending.now) }
    {
        let process = self.process;
        let serial = self.serial;
        let mut name = String::from_str(alloc, self.folder.as_str())?;
        let number = format!(in alloc; "/farm-{process}-{serial}.")?;
        name.push_str(number.as_str())?;
        name.push_str(ending)?;
        Ok(name)
    }

    fn advance(&mut self)
        ensures { names_view self.new ≡ next_names (names_view self.old) }
    {
        self.serial = self.serial.wrapping_add(1);
    }

    /// The next name for a file that is written beside this path.
    pub fn next_beside(&mut self, alloc: Global, path: &str) -> Result<String, AllocError>
        ensures names { names_view self.new ≡ next_names (names_view self.old) }
        ensures text { IfOk result (λ name. IsBeside path.now (staged_text (names_view self.new)) (string_bytes name)) }
    {
        self.advance();
        staged_beside(alloc, path, self.process, self.serial)
    }

    /// The next name in the folder.
    pub fn next(&mut self, alloc: Global, ending: &str) -> Result<String, AllocError>
        ensures names { names_view self.new ≡ next_names (names_view self.old) }
        ensures text { IfOk result (λ name. string_bytes name ≡ own_name (names_view self.new) ending.now) }
    {
        self.advance();
        self.current(alloc, ending)
    }
}

/// `farm-PROCESS-SERIAL.farm~` in the folder of this path.
fn staged_beside(alloc: Global, path: &str, process: u32, serial: u64) -> Result<String, AllocError>
    ensures { IfOk result (λ name. IsBeside path.now (numbered process serial) (string_bytes name)) }
{
    let number = numbered(alloc, process, serial)?;
    match path.rsplit_once('/') {
        Some((folder, _)) => {
            let mut name = String::from_str(alloc, folder)?;
            name.push_str("/")?;
            name.push_str(number.as_str())?;
            Ok(name)
        }
        None => Ok(number),
    }
}

fn numbered(alloc: Global, process: u32, serial: u64) -> Result<String, AllocError>
    ensures { IfOk result (λ name. string_bytes name ≡ numbered process serial) }
{
    let name = format!(in alloc; "farm-{process}-{serial}.farm~")?;
    Ok(name)
}
