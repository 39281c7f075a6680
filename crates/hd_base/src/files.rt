//! Files: a finite map from names to bytes.

ghost use Rattle.std.specs.Prelude.{◌≡◌, ℕ, ◌+◌, ◌<◌, ◌≤◌, ◌⊎◌, List, length, take, Option, IfSome, IfOk, OnOk, OnErr, IsErrOf};
ghost use Rattle.hd_base.specs.Faults.{FaultSchedule, FollowsSchedule};
ghost use Rattle.hd_base.specs.FileMaps.{FileMap, HasLength, HasBytesAt, Becomes, IsPlaceIn, AreNamesOf, KeepsRoom, CarriesRoom, HasRoomForAll};
ghost use Rattle.hd_base.specs.Calls.{Make, Write, Cut, Sync, Rename, Remove, effect_of, Log, Logs, IsUnchanged, MakesPartOf, LogMakesFiles};
ghost use Rattle.hd_base.specs.FileCauses.{FileCause, MemoryCause, FaultCause};

use crate::file_name::FileName;
use std::alloc::{AllocError, Global};
use thiserror::Error;

/// Why a call on files failed.
#[derive(Clone, Copy, Debug, PartialEq, Eq, Error)]
pub enum FileError {
    /// There is no file of that name.
    #[error("there is no such file")]
    Absent,
    /// The call failed, and the files' count of faults rose.
    #[error("the file call failed")]
    Failed,
    /// Memory ran out; nothing changed.
    #[error("out of memory")]
    Memory,
}

impl From<AllocError> for FileError {
    ghost use Rattle.hd_base.specs.declared.files.FileError.TheVariants as file_error;

    ghost from_gives = { λ _ e. e ≡ file_error.Memory };

    fn from(_: AllocError) -> FileError {
        FileError::Memory
    }
}

/// Files by their names. Their meaning is a finite map from names to bytes, where the
/// implementation shows it, and a log of the calls made on them that aren't mere reads, where it
/// shows that too. Each name has a room, a bound below which its file's length needs no memory (0
/// is none), and the count of faults never falls.
///
/// `Absent` comes exactly where the name isn't in the map, where observable; where not, only where
/// the count rose.
pub trait Files: Drop {
    ghost files: { Self → Option FileMap };

    ghost log: { Self → Option Log };

    ghost room: { Self → List ℕ → ℕ };

    ghost faults: { Self → ℕ };

    ghost schedule: { Self → Option FaultSchedule };

    /// The names of all files, in ascending order.
    fn names(&mut self, alloc: Global) -> Result<Vec<FileName>, FileError>
        ensures names { IfOk result (λ v. IfSome (files self.old) (λ m. AreNamesOf m v.items)) }
        ensures files { files self.new ≡ files self.old }
        ensures log { log self.new ≡ log self.old }
        ensures room { KeepsRoom (room self.old) (room self.new) }
        ensures cause { MemoryCause (faults self.old) (faults self.new) result }
        ensures schedule { FollowsSchedule
            (schedule self.old) (schedule self.new) (faults self.old) (faults self.new) result };

    /// How many bytes a file has.
    fn length(&mut self, name: &FileName) -> Result<u64, FileError>
        ensures value { IfOk result (λ n. HasLength (files self.old) name.now n) }
        ensures files { files self.new ≡ files self.old }
        ensures log { log self.new ≡ log self.old }
        ensures room { KeepsRoom (room self.old) (room self.new) }
        ensures cause { FileCause (files self.old) name.now (faults self.old) (faults self.new) result }
        ensures schedule { FollowsSchedule
            (schedule self.old) (schedule self.new) (faults self.old) (faults self.new) result };

    /// Reads from a place into the front of the buffer, and answers how many bytes: the least of
    /// the buffer's length and the bytes from the place to the end.
    fn read_at(&mut self, name: &FileName, place: u64, into: &mut [u8]) -> Result<usize, FileError>
        ensures within { IfOk result (λ n. n ≤ length into.new) }
        ensures value { IfOk result (λ n. HasBytesAt
            (files self.old) name.now place (length into.new) (take n into.new)) }
        ensures files { files self.new ≡ files self.old }
        ensures log { log self.new ≡ log self.old }
        ensures room { KeepsRoom (room self.old) (room self.new) }
        ensures cause { FileCause (files self.old) name.now (faults self.old) (faults self.new) result }
        ensures schedule { FollowsSchedule
            (schedule self.old) (schedule self.new) (faults self.old) (faults self.new) result };

    /// Secures that the file may grow to this length, or be made and grow to it, without memory.
    fn room(&mut self, alloc: Global, name: &FileName, len: u64) -> Result<(), FileError>
        ensures covers { OnOk result (len < room self.new name.now) }
        ensures files { files self.new ≡ files self.old }
        ensures log { log self.new ≡ log self.old }
        ensures room { KeepsRoom (room self.old) (room self.new) }
        ensures cause { MemoryCause (faults self.old) (faults self.new) result }
        ensures schedule { FollowsSchedule
            (schedule self.old) (schedule self.new) (faults self.old) (faults self.new) result };

    /// Makes an empty file, whether or not the name was there. A failed call leaves the old file,
    /// the empty one, or none if none was there.
    fn make(&mut self, name: &FileName) -> Result<(), FileError>
        requires { 0 < room self.old name.now }
        ensures done { OnOk result (Becomes (files self.old) (files self.new) (effect_of (Make name.now))) }
        ensures logged { OnOk result (Logs (log self.old) (log self.new) (Make name.now)) }
        ensures in_part { OnErr result (MakesPartOf
            (files self.old) (files self.new) (log self.old) (log self.new) (Make name.now)) }
        ensures room { KeepsRoom (room self.old) (room self.new) }
        ensures cause { FaultCause (faults self.old) (faults self.new) result }
        ensures schedule { FollowsSchedule
            (schedule self.old) (schedule self.new) (faults self.old) (faults self.new) result };

    /// Writes bytes over what stands at their place, and makes the file longer where they reach
    /// past the end. A failed call leaves a prefix of the bytes written at their place.
    fn write_at(&mut self, name: &FileName, place: u64, piece: &[u8]) -> Result<(), FileError>
        requires room { place + length piece.now < room self.old name.now }
        requires place { IsPlaceIn (files self.old) name.now place }
        ensures done { OnOk result (Becomes
            (files self.old) (files self.new) (effect_of (Write name.now place piece.now))) }
        ensures logged { OnOk result (Logs (log self.old) (log self.new) (Write name.now place piece.now)) }
        ensures in_part { OnErr result (MakesPartOf
            (files self.old) (files self.new) (log self.old) (log self.new) (Write name.now place piece.now)) }
        ensures absent { IsErrOf result FileError.Absent → IsUnchanged
            (files self.old) (files self.new) (log self.old) (log self.new) }
        ensures room { KeepsRoom (room self.old) (room self.new) }
        ensures cause { FileCause (files self.old) name.now (faults self.old) (faults self.new) result }
        ensures schedule { FollowsSchedule
            (schedule self.old) (schedule self.new) (faults self.old) (faults self.new) result };

    /// Cuts a file to a length that it has or is longer than. A failed call leaves the old length
    /// or the new one.
    fn cut(&mut self, name: &FileName, len: u64) -> Result<(), FileError>
        requires { IsPlaceIn (files self.old) name.now len }
        ensures done { OnOk result (Becomes (files self.old) (files self.new) (effect_of (Cut name.now len))) }
        ensures logged { OnOk result (Logs (log self.old) (log self.new) (Cut name.now len)) }
        ensures in_part { OnErr result (MakesPartOf
            (files self.old) (files self.new) (log self.old) (log self.new) (Cut name.now len)) }
        ensures absent { IsErrOf result FileError.Absent → IsUnchanged
            (files self.old) (files self.new) (log self.old) (log self.new) }
        ensures room { KeepsRoom (room self.old) (room self.new) }
        ensures cause { FileCause (files self.old) name.now (faults self.old) (faults self.new) result }
        ensures schedule { FollowsSchedule
            (schedule self.old) (schedule self.new) (faults self.old) (faults self.new) result };

    /// Brings a file's bytes to the disk.
    fn sync(&mut self, name: &FileName) -> Result<(), FileError>
        ensures files { files self.new ≡ files self.old }
        ensures logged { OnOk result (Logs (log self.old) (log self.new) (Sync name.now)) }
        ensures in_part { OnErr result (MakesPartOf
            (files self.old) (files self.new) (log self.old) (log self.new) (Sync name.now)) }
        ensures absent { IsErrOf result FileError.Absent → log self.new ≡ log self.old }
        ensures room { KeepsRoom (room self.old) (room self.new) }
        ensures cause { FileCause (files self.old) name.now (faults self.old) (faults self.new) result }
        ensures schedule { FollowsSchedule
            (schedule self.old) (schedule self.new) (faults self.old) (faults self.new) result };

    /// Gives a file another name, in the place of a file that has it, and carries its room there.
    /// A failed call leaves all as it was or has done all.
    fn rename(&mut self, from: &FileName, to: &FileName) -> Result<(), FileError>
        ensures done { OnOk result (Becomes (files self.old) (files self.new) (effect_of (Rename from.now to.now))) }
        ensures logged { OnOk result (Logs (log self.old) (log self.new) (Rename from.now to.now)) }
        ensures in_part { OnErr result (MakesPartOf
            (files self.old) (files self.new) (log self.old) (log self.new) (Rename from.now to.now)) }
        ensures absent { IsErrOf result FileError.Absent → IsUnchanged
            (files self.old) (files self.new) (log self.old) (log self.new) }
        ensures carried { OnOk result (CarriesRoom (room self.old) (room self.new) from.now to.now) }
        ensures room { OnErr result (KeepsRoom (room self.old) (room self.new)
            ⊎ CarriesRoom (room self.old) (room self.new) from.now to.now) }
        ensures cause { FileCause (files self.old) from.now (faults self.old) (faults self.new) result }
        ensures schedule { FollowsSchedule
            (schedule self.old) (schedule self.new) (faults self.old) (faults self.new) result };

    /// Removes a file. A failed call leaves all as it was or has done all.
    fn remove(&mut self, name: &FileName) -> Result<(), FileError>
        ensures done { OnOk result (Becomes (files self.old) (files self.new) (effect_of (Remove name.now))) }
        ensures logged { OnOk result (Logs (log self.old) (log self.new) (Remove name.now)) }
        ensures in_part { OnErr result (MakesPartOf
            (files self.old) (files self.new) (log self.old) (log self.new) (Remove name.now)) }
        ensures absent { IsErrOf result FileError.Absent → IsUnchanged
            (files self.old) (files self.new) (log self.old) (log self.new) }
        ensures room { KeepsRoom (room self.old) (room self.new) }
        ensures cause { FileCause (files self.old) name.now (faults self.old) (faults self.new) result }
        ensures schedule { FollowsSchedule
            (schedule self.old) (schedule self.new) (faults self.old) (faults self.new) result };

    // A name has room for at least what its file holds, where observable.
    ghost covers_files: { (f : Self) → HasRoomForAll (files f) (room f) };

    // Where the log is observable, so are the files, and its calls made them.
    ghost log_makes_files: { (f : Self) → LogMakesFiles (log f) (files f) };
}
