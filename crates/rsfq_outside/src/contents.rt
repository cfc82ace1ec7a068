//! The files of a folder in memory.
ghost use Rattle.std.specs.Prelude.{◌≡◌, ◌≤◌, OnOk, OnErr, IfOk, take, vec_len};
ghost use Rattle.std.specs.Option.{option_copied};
ghost use Rattle.std.specs.FinMap as map;

use std::alloc::{AllocError, Global};
use std::collections::BTreeMap;
use std::marker::Model;

/// A map from names to bytes.
#[derive(Drop)]
pub(crate) struct Contents {
    alloc: Global,
    files: BTreeMap<String, Vec<u8>>,
}

impl Model for Contents {
    ghost use Rattle.std.specs.Coded.{coded_ℕ, coded_list};
    ghost use Rattle.std.specs.FinMap as map;
    ghost use Rattle.rsfq_outside.specs.Told.{Files, files_of};

    ghost Value = { Files };

    ghost coded = { map.code (coded_list coded_ℕ) (coded_list coded_ℕ) };

    ghost view = { λ c. files_of c.files.entries };
}

impl Contents {
    /// No files.
    pub fn new(alloc: Global) -> Self
        ensures { result ≡ map.empty }
    {
        Contents {
            alloc,
            files: BTreeMap::new(alloc),
        }
    }

    /// The content of a name, or `None` where the name is absent.
    pub fn get(&self, name: &str) -> Option<&[u8]>
        ensures { option_copied result ≡ map.get self.now name.now }
    {
        match self.files.get(name) {
            None => None,
            Some(bytes) => Some(bytes.as_slice()),
        }
    }

    /// Sets the content of a name. Where memory is wanting nothing has changed.
    pub fn put(&mut self, name: &str, bytes: &[u8]) -> Result<(), AllocError>
        ensures ok { OnOk result (self.new ≡ map.insert self.old name.now bytes.now) }
        ensures err { OnErr result (self.new ≡ self.old) }
    {
        let key = String::from_str(self.alloc, name)?;
        let content = Vec::from_slice(self.alloc, bytes)?;
        self.files.insert(key, content)?;
        Ok(())
    }
}

/// A copy of the first `limit` bytes, or of all where they are fewer.
pub(crate) fn copy_front(alloc: Global, bytes: &[u8], limit: usize) -> Result<Vec<u8>, AllocError>
    ensures front { IfOk result (λ v. v.items ≡ take limit bytes.now) }
    ensures bound { IfOk result (λ v. vec_len v ≤ limit) }
{
    let len = bytes.len().min(limit);
    Vec::from_slice(alloc, &bytes[..len])
}
