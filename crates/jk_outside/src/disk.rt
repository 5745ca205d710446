//! The files of the system that the program runs on. Each call passes on to the toolchain's, and does nothing else.

use crate::system::System;
use std::alloc::Global;
use std::fs::{File, Metadata, OpenFile, ReadDir};
use std::io::Read;
use std::{fs, io, rt};

/// The files of a runtime. They tell nothing.
#[derive(Drop)]
pub struct Disk<R: rt::Files + AllocGlobal + Clone + Drop> {
    alloc: Global,
    runtime: R,
}

impl<R: rt::Files + AllocGlobal + Clone + Drop> Disk<R> {
    pub fn new(alloc: Global, runtime: R) -> Disk<R> {
        Disk { alloc, runtime }
    }
}

impl<R: rt::Files + AllocGlobal + Clone + Drop> System for Disk<R> {
    type File = R::File;

    type Folder = ReadDir<R, Global>;

    fn look_at(&mut self, path: &str) -> io::Result<Metadata> {
        fs::metadata(&self.runtime, path)
    }

    fn open_file(&mut self, path: &str) -> io::Result<R::File> {
        File::open(&self.runtime, path)
    }

    fn look_into(&mut self, file: &R::File) -> io::Result<Metadata> {
        file.metadata()
    }

    fn read(&mut self, file: &mut R::File, piece: &mut [u8]) -> io::Result<usize> {
        file.read(piece)
    }

    fn open_folder(&mut self, path: &str) -> io::Result<ReadDir<R, Global>> {
        fs::read_dir(&self.runtime, path)
    }

    fn next_name(&mut self, folder: &mut ReadDir<R, Global>) -> io::Result<Option<String>> {
        match folder.next() {
            None => Ok(None),
            Some(entry) => Ok(Some(String::from_str(self.alloc, entry?.file_name())?)),
        }
    }
}
