//! The file of a font, which is read once for all command lines in a row that name it.

ghost use Rattle.std.specs.Prelude.{◌≡◌, ◌↔◌, [], Some, None, IsTrue, OnOk, OnErr, unwrap_or};

use std::alloc::Global;
use std::marker::Model;
use std::rt::Files;
use std::{fs, io};

/// The file that was read last. A contract sees its name, if one was read, and its bytes.
#[derive(Drop)]
pub struct FontFile {
    path: Option<String>,
    bytes: Vec<u8>,
}

impl Model for FontFile {
    ghost use Rattle.std.specs.Prelude.{option_map, string_bytes};
    ghost use Rattle.shape_fonts.specs.HeldFile.{HeldFile};

    ghost Value = { HeldFile };

    ghost view = { λ f. record {
      path = option_map string_bytes f.path;
      bytes = f.bytes.items;
    } };
}

impl FontFile {
    /// No file.
    pub fn new(alloc: Global) -> Self
        ensures { result ≡ record { path = None; bytes = [] } }
    {
        FontFile {
            path: None,
            bytes: Vec::new(alloc),
        }
    }

    /// Reads a file, unless it was read last. `-` is standard input. After an error no file is held.
    pub fn read<F: Files + AllocGlobal>(&mut self, rt: &F, path: &str) -> io::Result<()>
        ensures held { OnOk result (self.new.path ≡ Some path.now) }
        ensures lost { OnErr result (self.new.path ≡ None) }
        ensures kept { self.old.path ≡ Some path.now → self.new ≡ self.old }
    {
        if !self.is_of(path) {
            self.path = None;
            self.bytes = fs::read(rt, if path == "-" { "/dev/stdin" } else { path })?;
            self.path = Some(String::from_str(rt.alloc(), path)?);
        }
        Ok(())
    }

    /// The bytes of the file that was read last.
    pub fn data(&self) -> &[u8]
        ensures { result.now ≡ self.now.bytes }
    {
        self.bytes.as_slice()
    }

    /// Its name; the empty text where none was read.
    pub fn path(&self) -> &str
        ensures { result.now ≡ unwrap_or self.now.path [] }
    {
        match &self.path {
            Some(path) => path.as_str(),
            None => "",
        }
    }

    /// Whether this file was read last.
    pub fn is_of(&self, path: &str) -> bool
        ensures { IsTrue result ↔ (self.now.path ≡ Some path.now) }
    {
        match &self.path {
            Some(held) => held.as_str() == path,
            None => false,
        }
    }
}
