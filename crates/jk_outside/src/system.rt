//! What a system does for those who list its folders and read its files, each call as the disk needs it.

ghost use Rattle.std.specs.Prelude.{◌≡◌, ℕ, List, Option, Some, None, IfOk, IfErr, option_map, string_bytes};
ghost use Rattle.std.specs.Fs.{file_type};
ghost use Rattle.std.specs.Io.{ReadsAtMost};
ghost use Rattle.std.specs.Io.KnownBytes.{ReadConsumes};
ghost use Rattle.std.specs.IoError.{error_kind};
ghost use Rattle.jk_outside.specs.declared.files.FilesError.TheVariants as Why;
ghost use Rattle.jk_outside.specs.Reading.{opening_fault};
ghost use Rattle.jk_outside.specs.Systems.{Places, Stands, Step, step_of, LooksAt, OpensFile, OpensFolder, LooksInto, Reads, TakesName, IsSeenAt, HasNothing, HasNoFolderAt, IsOpenedAt, IsSeenOpen, IsFolderAt, GivesName, Logs};

use std::fs::Metadata;
use std::io;

/// A system of files. It may tell what stands at each path, which never changes, and which calls it was asked for.
pub trait System {
    /// A file that was opened.
    type File: Drop;

    /// A folder that was opened.
    type Folder: Drop;

    /// What stands at each path, where that is told.
    ghost places: { Self → Option Places } = { λ _. None };

    /// The calls so far, where they are told.
    ghost log: { Self → Option (List Step) } = { λ _. None };

    /// What stood where a file was opened.
    ghost opened: { Self.File → Option Stands } = { λ _. None };

    /// The bytes that reads of it will give.
    ghost bytes_left: { Self.File → Option (List ℕ) } = { λ _. None };

    /// The names that an open folder will give.
    ghost names_left: { Self.Folder → Option (List (List ℕ)) } = { λ _. None };

    /// What the system says of what stands at a path. A link counts as what it leads to.
    fn look_at(&mut self, path: &str) -> io::Result<Metadata>
        ensures seen { IfOk result (λ seen. IsSeenAt (places self.old) path.now (file_type seen)) }
        ensures absent { IfErr result (λ e. opening_fault (error_kind e) ≡ Why.Absent → HasNothing (places self.old) path.now) }
        ensures log { Logs (log self.old) (log self.new) (step_of (LooksAt path.now) result) }
        ensures stays { places self.new ≡ places self.old };

    /// Opens a file, to read it from its front.
    fn open_file(&mut self, path: &str) -> io::Result<Self::File>
        ensures opened { IfOk result (λ file. IsOpenedAt (places self.old) path.now (opened file) (bytes_left file)) }
        ensures absent { IfErr result (λ e. opening_fault (error_kind e) ≡ Why.Absent → HasNothing (places self.old) path.now) }
        ensures log { Logs (log self.old) (log self.new) (step_of (OpensFile path.now) result) }
        ensures stays { places self.new ≡ places self.old };

    /// What the system says of what was opened.
    fn look_into(&mut self, file: &Self::File) -> io::Result<Metadata>
        ensures seen { IfOk result (λ seen. IsSeenOpen (opened file.now) (file_type seen)) }
        ensures log { Logs (log self.old) (log self.new) (step_of LooksInto result) }
        ensures stays { places self.new ≡ places self.old };

    /// Reads on, and answers how many bytes it gave: none only at the end, or where there is no room.
    fn read(&mut self, file: &mut Self::File, piece: &mut [u8]) -> io::Result<usize>
        ensures bound { ReadsAtMost result piece.new }
        ensures bytes { ReadConsumes (bytes_left file.old) (bytes_left file.new) result piece.new }
        ensures log { Logs (log self.old) (log self.new) (step_of Reads result) }
        ensures stays { places self.new ≡ places self.old };

    /// Opens a folder, to take its names.
    fn open_folder(&mut self, path: &str) -> io::Result<Self::Folder>
        ensures opened { IfOk result (λ folder. IsFolderAt (places self.old) path.now (names_left folder)) }
        ensures absent { IfErr result (λ e. opening_fault (error_kind e) ≡ Why.Absent → HasNoFolderAt (places self.old) path.now) }
        ensures log { Logs (log self.old) (log self.new) (step_of (OpensFolder path.now) result) }
        ensures stays { places self.new ≡ places self.old };

    /// The next name in an open folder, if any is left. None is `.` or `..`.
    fn next_name(&mut self, folder: &mut Self::Folder) -> io::Result<Option<String>>
        ensures gives { IfOk result (λ name. GivesName (names_left folder.old) (names_left folder.new) (option_map string_bytes name)) }
        ensures log { Logs (log self.old) (log self.new) (step_of TakesName result) }
        ensures stays { places self.new ≡ places self.old };
}
