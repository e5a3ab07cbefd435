ghost use Rattle.std.specs.Prelude.{◌≡◌, ◌≢◌, ◌+◌, ◌<◌, ◌≤◌, ◌^◌, length, count_by, IfSome, None, Some};
ghost use Rattle.inc_entry.specs.Stored.{is_open_class};
ghost use Rattle.inc_layout.specs.opening.Opening.{IsSoundOpened};
ghost use Rattle.inc_recover.specs.Mounting.{counted, open_data, open_hash, status_with};

use inc_entry::Class;
use inc_layout::Opened;
use inc_md::StatusRecord;

/// Sets the counts of the status record to those of the blocks that are there. Gives the record where its counts were others, so that
/// they have to be written.
pub fn count_blocks(opened: &mut Opened) -> Option<StatusRecord>
    requires { IsSoundOpened opened.old }
    ensures value { opened.new ≡ counted opened.old }
    ensures some { IfSome result (λ status. opened.new.records.status ≡ Some status) }
    ensures needed { IfSome result (λ status. opened.old.records.status ≢ Some status) }
    ensures inside { IfSome result (λ status. status.at + 8 ≤ opened.old.len) }
    ensures small { IfSome result (λ status. (status.data_written < 2 ^ 32) × (status.hash_written < 2 ^ 32)) }
    ensures none { result ≡ None → counted opened.old ≡ opened.old }
{
    let Some(status) = opened.records.status else {
        return None;
    };
    let wanted = counted_status(opened, status);
    opened.records.status = Some(wanted);
    changed(status, wanted)
}

/// The record, where it differs.
fn changed(status: StatusRecord, wanted: StatusRecord) -> Option<StatusRecord>
    ensures some { IfSome result (λ found. found ≡ wanted) }
    ensures needed { IfSome result (λ found. status ≢ found) }
    ensures none { result ≡ None → wanted ≡ status }
{
    if wanted == status {
        return None;
    }
    Some(wanted)
}

/// The record with the numbers of data and hash blocks that are there.
fn counted_status(opened: &Opened, status: StatusRecord) -> StatusRecord
    requires { IsSoundOpened opened.now }
    ensures value { result ≡ status_with (open_data opened.now) (open_hash opened.now) status }
{
    let data_blocks = opened.areas.geometry.data_blocks();
    let hash_blocks = opened.areas.geometry.hash_blocks();
    let (first, rest) = opened.classes.as_slice().split_at(data_blocks as usize);
    StatusRecord {
        at: status.at,
        data_written: open_count(first),
        hash_written: open_count(rest),
    }
}

fn open_count(classes: &[Class]) -> u32
    requires { length classes.now < 2 ^ 32 }
    ensures value { result ≡ count_by is_open_class classes.now }
{
    classes.iter().filter(|class| is_open(**class)).count() as u32
}

fn is_open(class: Class) -> bool
    ensures value { result ≡ is_open_class class }
{
    matches!(class, Class::OpenAt { .. })
}
