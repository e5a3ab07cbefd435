/// The types of the records that are looked at.
pub const MAP_KIND: u8 = 1;

pub const SIGNATURE_KIND: u8 = 3;

pub const STATUS_KIND: u8 = 4;

/// How many bytes every record begins with. Its own fields follow them.
pub const HEAD_SIZE: usize = 23;

/// The whole sizes of the records that are looked at.
pub const MAP_RECORD_SIZE: u16 = 35;

pub const SIGNATURE_RECORD_SIZE: u16 = 47;

pub const STATUS_RECORD_SIZE: u16 = 55;

/// How many bytes the own fields of a block map and of a signature record take.
pub const MAP_FIELDS: usize = MAP_RECORD_SIZE as usize - HEAD_SIZE;

pub const SIGNATURE_FIELDS: usize = SIGNATURE_RECORD_SIZE as usize - HEAD_SIZE;

/// How many bytes a status record's two counts take, the first of its own fields.
pub const COUNTS_SIZE: usize = 8;

/// The most records of a chain.
pub const MOST_RECORDS: usize = 1024;
