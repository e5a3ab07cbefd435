ghost use Rattle.std.specs.Prelude.{◌≡◌, ◌+◌, ◌^◌, ◌<◌, ◌≤◌, ◌++◌, ℕ, List, [], take, drop, length, replicate, OnOk, IfOk, IfSome};
ghost use Rattle.inc_io.specs.Causes.{HasCause};
ghost use Rattle.inc_disk.specs.Disk.{Now, settled};
ghost use Rattle.inc_disk.specs.Laws.{LeavesOnly};
ghost use Rattle.inc_layout.specs.Fresh.{IsFreshImage, image_of};
ghost use Rattle.inc_recover.specs.Making.{HasMagic, IsUnmarked, MayBeLeft, blank, given_back, image_with, magic_in, zeros_in};

use inc_disk::Disk;
use inc_io::Failed;
use inc_layout::FreshImage;

/// The bytes of the header's magic number.
const MAGIC_LEN: usize = 8;

/// Stands in for the magic number until all else has settled.
const BLANK: [u8; MAGIC_LEN] = [0; MAGIC_LEN];

/// The most bytes of a piece of zeros.
const PIECE: usize = 65536;

static ZEROS: [u8; PIECE] = [0; PIECE];

/// Writes a fresh file to an empty disk. After a failure the file is short, has no good magic number, or is whole.
///
/// The magic number comes last, once all else has settled, and settles itself before the call returns. No more of the file than its front
/// is in memory: the zeros behind that are written in pieces of at most 64 KiB.
pub fn make_file<D: Disk>(disk: D, image: &FreshImage) -> Result<D, (Failed, D)>
    requires empty { Now (D.states (D.kept disk)) (λ state. state ≡ settled []) }
    requires fresh { IsFreshImage (image_of image.now) }
    ensures made { IfOk result (λ made. Now (D.states (D.kept made)) (λ state. state ≡ settled (image_of image.now))) }
    // A crash at any moment of the call leaves bytes that are refused by their first ones, or all of the file.
    ensures moments { LeavesOnly (D.states (D.kept disk)) (D.states (D.kept (given_back result))) (MayBeLeft (image_of image.now)) }
    ensures cause { HasCause (D.faults disk) (D.faults (given_back result)) result }
{
    let mut disk = disk;
    let front = image.front.as_slice();
    match put_image(&mut disk, front, image.len) {
        Ok(()) => Ok(disk),
        Err(failed) => Err((failed, disk)),
    }
}

fn put_image<D: Disk>(disk: &mut D, front: &[u8], len: u64) -> Result<(), Failed>
    requires empty { Now (D.states (D.kept disk.old)) (λ state. state ≡ settled []) }
    requires fresh { IsFreshImage (image_with front.now len) }
    ensures made { OnOk result (Now (D.states (D.kept disk.new)) (λ state. state ≡ settled (image_with front.now len))) }
    ensures moments { LeavesOnly (D.states (D.kept disk.old)) (D.states (D.kept disk.new)) (MayBeLeft (image_with front.now len)) }
    ensures cause { HasCause (D.faults disk.old) (D.faults disk.new) result }
{
    put_blank(disk)?;
    put_rest(disk, rest_of(front), zeros_behind(front, len))?;
    put_magic(disk, &magic_of(front))
}

/// The first eight bytes of a file with this front.
fn magic_of(front: &[u8]) -> [u8; MAGIC_LEN]
    ensures value { result ≡ magic_in front.now }
{
    let mut magic = BLANK;
    let count = front.len().min(MAGIC_LEN);
    magic[..count].copy_from_slice(&front[..count]);
    magic
}

/// What the front has behind them.
fn rest_of(front: &[u8]) -> &[u8]
    ensures value { result.now ≡ drop 8 front.now }
{
    &front[front.len().min(MAGIC_LEN)..]
}

/// How many zeros stand behind that in a file of so many bytes.
fn zeros_behind(front: &[u8], len: u64) -> u64
    ensures value { result ≡ zeros_in front.now len }
{
    len.saturating_sub(front.len().max(MAGIC_LEN) as u64)
}

/// Until this has settled, the file is shorter than a header.
fn put_blank<D: Disk>(disk: &mut D) -> Result<(), Failed>
    requires empty { Now (D.states (D.kept disk.old)) (λ state. state ≡ settled []) }
    ensures made { OnOk result (Now (D.states (D.kept disk.new)) (λ state. state ≡ settled blank)) }
    ensures moments { (image : List ℕ) → LeavesOnly (D.states (D.kept disk.old)) (D.states (D.kept disk.new)) (MayBeLeft image) }
    ensures cause { HasCause (D.faults disk.old) (D.faults disk.new) result }
{
    disk.write_at(0, &BLANK)?;
    disk.sync()
}

/// Until the magic number is written, the file has none.
fn put_rest<D: Disk>(disk: &mut D, rest: &[u8], zeros: u64) -> Result<(), Failed>
    requires blank { Now (D.states (D.kept disk.old)) (λ state. state ≡ settled blank) }
    requires short { 8 + length rest.now + zeros ≤ 2 ^ 47 }
    ensures made { OnOk result (Now (D.states (D.kept disk.new)) (λ state. state ≡ settled (blank ++ (rest.now ++ replicate zeros 0)))) }
    ensures moments { (image : List ℕ) → LeavesOnly (D.states (D.kept disk.old)) (D.states (D.kept disk.new)) (MayBeLeft image) }
    ensures cause { HasCause (D.faults disk.old) (D.faults disk.new) result }
{
    disk.write_at(MAGIC_LEN as u64, rest)?;
    put_zeros(disk, MAGIC_LEN as u64 + rest.len() as u64, zeros)?;
    disk.sync()
}

/// Writes zeros behind all that is there.
fn put_zeros<D: Disk>(disk: &mut D, from: u64, count: u64) -> Result<(), Failed>
    requires end { from + count ≤ 2 ^ 47 }
    requires place { IfSome (D.reads (D.kept disk.old)) (λ bytes. length bytes ≡ from) }
    ensures made { (rest : List ℕ) → from ≡ 8 + length rest → Now (D.states (D.kept disk.old)) (IsUnmarked rest)
        → OnOk result (Now (D.states (D.kept disk.new)) (IsUnmarked (rest ++ replicate count 0))) }
    ensures moments { (rest image : List ℕ) → from ≡ 8 + length rest → Now (D.states (D.kept disk.old)) (IsUnmarked rest)
        → LeavesOnly (D.states (D.kept disk.old)) (D.states (D.kept disk.new)) (MayBeLeft image) }
    ensures cause { HasCause (D.faults disk.old) (D.faults disk.new) result }
{
    let mut done = 0;
    while done < count {
        let wanted = (count - done).min(PIECE as u64) as usize;
        disk.write_at(from + done, zero_piece(wanted))?;
        done += wanted as u64;
    }
    Ok(())
}

fn zero_piece(wanted: usize) -> &'static [u8]
    requires { wanted ≤ 65536 }
    ensures value { result.now ≡ replicate wanted 0 }
{
    &ZEROS[..wanted]
}

/// Writes the magic number of an image whose other bytes stand. While it is torn the file has no good one, unless all of it is there.
fn put_magic<D: Disk>(disk: &mut D, magic: &[u8; MAGIC_LEN]) -> Result<(), Failed>
    ensures made { (image : List ℕ) → HasMagic image → magic.now ≡ take 8 image → Now (D.states (D.kept disk.old)) (λ state. state ≡ settled (blank ++ drop 8 image))
        → OnOk result (Now (D.states (D.kept disk.new)) (λ state. state ≡ settled image)) }
    ensures moments { (image : List ℕ) → HasMagic image → magic.now ≡ take 8 image → Now (D.states (D.kept disk.old)) (λ state. state ≡ settled (blank ++ drop 8 image))
        → LeavesOnly (D.states (D.kept disk.old)) (D.states (D.kept disk.new)) (MayBeLeft image) }
    ensures cause { HasCause (D.faults disk.old) (D.faults disk.new) result }
{
    disk.write_at(0, magic)?;
    disk.sync()
}
